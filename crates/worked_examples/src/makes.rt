//! Stores that are made from a seed. Another program gave the numbers.

use crate::desk::{audit, made, notary};
use crate::story::tell;
use disk_model::MemDisk;
use std::test::Fail;

const MAKES: &str = "\
a seed fills a store; a second time its table and its keys are there already
$ make 7 1 100 = 0 made 100 refused 0 txns 101; sealed 5; clean 5
$ holds 6 1
$ make 7 1 100 = 3 made 100 refused 95 txns 107; sealed 11; clean 11
$ validate 7 @ 6000 = 0 clean 11

a script has 1 to 100,000 steps, and a store of its id
$ make 7 1 0 = 2 fault Usage
$ make 7 1 100001 = 2 fault Usage
$ make 7 01 1 = 2 fault Usage
$ make 7 1 = 2 fault Usage
$ make 7 1 1 1 = 2 fault Usage
$ make 8 1 1 = 4 fault NotAStore
$ make 7 18446744073709551615 1 = 0 made 1 refused 0 txns 2; sealed 0; clean 0

a notary that fails ends it, and what was stored stays
$ fails 1 0
$ make 7 1 3 = 6 fault NotaryFault
$ make 7 2 1 = 3 made 1 refused 1 txns 5; sealed 0; clean 0

the two refusals of a full notary are told as replies
$ notary 0 0
$ make 7 1 1 = 3 made 1 refused 1 txns 2; refused Full; unsealed";

#[test]
fn a_seed_gives_one_store_and_one_summary(rt: HostRuntime) -> Result<(), Fail> {
    let alloc = rt.alloc();
    tell(&rt, alloc, "init 7 60 3 ta @ 0 = 0 ready 7", MAKES)?;
    let mut stores = Vec::new(alloc);
    for _ in 0..2 {
        let mut store = made(alloc, "init 7 60 3 ta")?;
        let input = "the input is not read\n";
        let told = audit(
            alloc,
            &mut store,
            &mut notary(alloc),
            "make 7 1 100",
            input,
            &[],
        )?;
        assert_eq!(rt; (told.0, store.bytes().len()), (0, 4594));
        stores.push(store)?;
    }
    let bytes: Vec<&[u8]> = stores.iter().map(MemDisk::bytes).collect(alloc)?;
    assert_eq!(rt; bytes.first(), bytes.last());
    Ok(())
}
