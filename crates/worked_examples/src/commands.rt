//! What `link` and `init` do.

use crate::desk::{ended, made, notary, tells};
use crate::story::tell;
use outside_io::MemSource;
use std::test::Fail;

const LINKED: &str = "\
link tells how many transactions are stored, and their chain
$ sealed 8 1 init 7 60 3 ta
$ link = 0 txns 9; link f87cbf8193e5ef79956ed0ccc181c1f75d54b9efd5ef2653599a6453cc09e26e
# a length that no record has ends the history
$ alter 95 00008001
$ link = 0 txns 1; link 57397a1f916ee3760c24b0eafe15ed750382ea2e9ca841430b03cf4c8ba99bc3
$ sealed 0 0 init 7 60 3 ta
$ cut 65
$ alter 64 00
$ link = 0 txns 0; link 91bb1e93ad90c2a95e1921cab17bc5aa1e88fb5738aa3a413cd28c70b4f43b92
# of a store without chains but the first
$ alter 30 [35*00]
$ link = 0 txns 0; link 7472d54d4aa35e0f4ee072819cb3c15cb704c8fc1c71d3baac0dba7c6fabc9d9
# across windows
$ sealed 10000 1250 init 7 60 3 ta
$ link = 0 txns 10001; link d96dd11a396f09b99ba2fba23ffb0d1edc6e042c26ccb85233565af4647e561a

link has no other words, takes a store, and writes its text
$ sealed 8 1 init 7 60 3 ta
$ link x = 2 fault Usage
$ link ! 1 = 8
$ cut 64
$ link = 4 fault NotAStore
$ cut 0
$ link = 4 fault NotAStore
$ link ! 1 = 8";

/// The stores are spelled with their gate and name, id, first second, width, exponent and algorithms.
const MADE: &str = "\
init makes a store of 65 bytes over what is none, once
$ init 7 60 3 m @ 0 = 0 ready 7
$ stored a7 445241474f4f4e32 0000000000000007 0000000000000000 0000003c 03 00 [34*00]
$ bytes a7
$ init 7 60 3 m @ 0 = 0 ready 7
$ stored a7 445241474f4f4e32 0000000000000007 0000000000000000 0000003c 03 00 [34*00]
$ bytes [40*00]
$ init 7 60 3 m @ 0 = 0 ready 7
$ stored a7 445241474f4f4e32 0000000000000007 0000000000000000 0000003c 03 00 [34*00]
$ init 7 60 3 m @ 0 = 13 fault AlreadyThere
# the clock is looked at before the store
$ init 7 60 3 m @ 1099511627776 = 15 fault TooLate
$ stored a7 445241474f4f4e32 0000000000000007 0000000000000000 0000003c 03 00 [34*00]

a gate at the front of what may be a store is left as it is
$ bytes a7 [39*00]
$ init 7 60 3 m @ 0 = 13 fault AlreadyThere
$ stored a7 [39*00]

the words and the clock's second are in the header
$ init 7 60 3 m @ 1099511627775 = 0 ready 7
$ stored a7 445241474f4f4e32 0000000000000007 000000ffffffffff 0000003c 03 00 [34*00]
$ cut 0
$ init 0 1 0 m @ 0 = 0 ready 0
$ stored a7 445241474f4f4e32 0000000000000000 0000000000000000 00000001 00 00 [34*00]
$ cut 0
$ init 18446744073709551615 86400 10 ta @ 0 = 0 ready 18446744073709551615
$ stored a7 445241474f4f4e32 ffffffffffffffff 0000000000000000 00015180 0a 03 [34*00]
$ cut 0
$ init 7 60 3 t @ 0 = 0 ready 7
$ stored a7 445241474f4f4e32 0000000000000007 0000000000000000 0000003c 03 01 [34*00]
$ cut 0
$ init 7 60 3 a @ 0 = 0 ready 7
$ stored a7 445241474f4f4e32 0000000000000007 0000000000000000 0000003c 03 02 [34*00]

numbers are plain and in their ranges
$ init 7 60 3 at @ 0 = 2 fault Usage
$ init 18446744073709551616 60 3 m @ 0 = 2 fault Usage
$ init 07 60 3 m @ 0 = 2 fault Usage
$ init +7 60 3 m @ 0 = 2 fault Usage
$ init  60 3 m @ 0 = 2 fault Usage
$ init 7 0 3 m @ 0 = 2 fault Usage
$ init 7 86401 3 m @ 0 = 2 fault Usage
$ init 7 60 11 m @ 0 = 2 fault Usage
$ init 7 60 3 x @ 0 = 2 fault Usage
$ stored";

#[test]
fn link_and_init_answer_by_what_the_store_holds(rt: HostRuntime) -> Result<(), Fail> {
    tell(&rt, rt.alloc(), "", LINKED)?;
    tell(&rt, rt.alloc(), "", MADE)
}

#[test]
fn no_word_and_a_word_with_a_space_are_no_command(rt: HostRuntime) -> Result<(), Fail> {
    let alloc = rt.alloc();
    let mut store = made(alloc, "init 7 60 3 m")?;
    let mut input = MemSource::new(Vec::new(alloc), 1, Vec::new(alloc));
    for words in [[].as_slice(), &["link "]] {
        let filed = &mut notary(alloc);
        let told = ended(alloc, words, &mut store, filed, &[], &mut input, &[])?;
        tells(&rt, "no command", &told, 2, "fault Usage\n");
    }
    Ok(())
}
