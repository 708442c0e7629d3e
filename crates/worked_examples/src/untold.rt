//! Each command over a store and a notary that tell nothing of what they hold: it ends as over those in memory.

use crate::desk::{audit, notary, sealed};
use disk_model::{Disk, Untold};
use notary_link::{Notary, Untold as UntoldNotary};
use std::alloc::{AllocError, Global};
use std::process::Abort;
use std::test::Fail;

const LINES: &str =
    "get t 1\ns3 begin\ns3 delete t 0\ns3 commit\nvalidate\naudit\nanalyse a3d\nnotarize\nget u 1\n";

/// The words of a call, its input, and how it ends over eight sealed granules.
const CALLS: [(&str, &str, u8); 15] = [
    ("link", "", 0),
    ("init 7 60 3 ta", "", 13),
    ("run 7", LINES, 3),
    ("run 7 scripted", LINES, 3),
    ("run 8", "get t 1\n", 4),
    ("notarize 7", "", 0),
    ("notarize 8", "", 4),
    ("validate 7", "", 0),
    ("validate 8", "", 0),
    ("analyse 7 mono", "", 0),
    ("analyse 7 tiled", "", 0),
    ("analyse 7 tiled 2", "", 0),
    ("analyse 7 a3d", "", 0),
    ("make 7 1 20", "", 0),
    ("drill", "init 9 60 2 m\ncreate t k int\nnotarize\n", 0),
];

/// How a call ends at second 960, and what it writes; behind that what then is found of the store.
fn told<D: Disk, N: Notary>(
    alloc: Global,
    store: &mut D,
    filed: &mut N,
    words: &str,
    input: &str,
) -> Result<(u8, Vec<u8>), AllocError> {
    let (status, mut text) = audit(alloc, store, filed, words, input, &[960])?;
    for command in ["link", "validate 7"] {
        let (_, found) = audit(alloc, store, filed, command, "", &[960])?;
        text.extend_from_slice(&found)?;
    }
    Ok((status, text))
}

/// The call ends so over these sealed granules, and as well where nothing is told.
fn ends_alike(
    rt: &impl Abort,
    alloc: Global,
    granules: u32,
    (words, input, status): (&str, &str, u8),
) -> Result<(), Fail> {
    let mut filed = notary(alloc);
    let mut store = sealed(alloc, "init 7 60 3 ta", granules, &mut filed)?;
    let shown = told(alloc, &mut store, &mut filed, words, input)?;
    assert_eq!(rt; shown.0, status, "{words}");
    let mut filed = notary(alloc);
    let store = sealed(alloc, "init 7 60 3 ta", granules, &mut filed)?;
    let (mut store, mut filed) = (Untold::new(store), UntoldNotary::new(filed));
    let hidden = told(alloc, &mut store, &mut filed, words, input)?;
    assert_eq!(rt;
        (hidden.0, hidden.1.as_slice()),
        (shown.0, shown.1.as_slice()),
        "{words}"
    );
    Ok(())
}

#[test]
fn devices_that_tell_nothing_are_served_alike(rt: HostRuntime) -> Result<(), Fail> {
    let alloc = rt.alloc();
    for call in CALLS {
        ends_alike(&rt, alloc, 8, call)?;
    }
    // of 301 items the first piece of an audit leaves some
    let pieces = "audit\nget t 1\naudit\naudit\n";
    ends_alike(&rt, alloc, 300, ("run 7", pieces, 0))
}
