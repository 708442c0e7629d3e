//! Evidence that is gathered of a store and its copy, and what is told to who examines it.

use crate::desk::{ID, empty};
use crate::sources::{Filed, LATER_TREES, Places, Sources, TILES, TREE, TREES, damaged, lacking};
use evidence_examine::{Examined, examine};
use evidence_gather::{GatherFail, Gathered, gather};
use notary_link::MemNotary;
use std::alloc::Global;
use std::test::Fail;
use tuple_bytes::Blob;

/// What was filed, the places that are altered in the store and in the copy, how many entries and bytes are gathered,
/// and what is told of them.
const FILES: [(Filed, Places, Places, u32, usize, &str); 7] = [
    (
        TREE,
        &[345],
        &[],
        1,
        133,
        "granule 5 not as notarized shown 1 original 1 as notarized\nexamined 1 confirmed 1\n",
    ),
    // the copy is altered there too, or has another header
    (
        TREE,
        &[219, 345],
        &[345],
        2,
        183,
        "granule 2 not as notarized shown 1 original 1 as notarized\n\
         granule 5 not as notarized shown 1\nexamined 2 confirmed 2\n",
    ),
    (
        TREE,
        &[345],
        &[27],
        1,
        88,
        "granule 5 not as notarized shown 1\nexamined 1 confirmed 1\n",
    ),
    // a row is moved to the granule before
    (
        TREE,
        &[321],
        &[],
        2,
        228,
        "granule 4 not as notarized shown 2 original 1 as notarized\n\
         granule 5 not as notarized shown 0 original 1 as notarized\nexamined 2 confirmed 2\n",
    ),
    // the copy alone is altered
    (TREE, &[], &[345], 0, 38, "examined 0 confirmed 0\n"),
    (TREES, &[], &[], 0, 58, "examined 0 confirmed 0\n"),
    (
        TREES,
        &[137, 179],
        &[179],
        2,
        203,
        "granule 1 not as notarized shown 1 original 1 as notarized\n\
         granule 5 not as notarized shown 1\nexamined 2 confirmed 2\n",
    ),
];

fn gather_from(alloc: Global, sources: &mut Sources) -> Result<Gathered, GatherFail> {
    gather(
        alloc,
        &mut sources.store,
        &mut sources.copy,
        &mut sources.notary,
        ID,
    )
}

/// How many entries a file has, and its bytes.
fn file_of(gathered: Gathered) -> Option<(u32, Blob)> {
    match gathered {
        Gathered::File { entries, bytes } => Some((entries, bytes)),
        _ => None,
    }
}

/// What is told of a file.
fn told(alloc: Global, bytes: &Blob, notary: &mut MemNotary) -> Result<Blob, Fail> {
    match examine(alloc, bytes.as_slice(), notary, ID)? {
        Examined::Lines { text } => Ok(text),
        Examined::OtherHeader => Err("another header")?,
    }
}

/// How many entries and bytes are gathered, and what is told of them.
fn shown(alloc: Global, sources: &mut Sources) -> Result<(u32, usize, Blob), Fail> {
    let gathered = gather_from(alloc, sources)?;
    let (entries, bytes) = file_of(gathered).ok_or("no file")?;
    let text = told(alloc, &bytes, &mut sources.notary)?;
    Ok((entries, bytes.as_slice().len(), text))
}

#[test]
fn each_altered_granule_is_shown(rt: HostRuntime) -> Result<(), Fail> {
    let alloc = rt.alloc();
    for (filed, ours, theirs, entries, size, lines) in FILES {
        let mut sources = damaged(alloc, &filed, ours, theirs)?;
        let (count, length, text) = shown(alloc, &mut sources)?;
        assert_eq!(rt; (count, length), (entries, size));
        assert_eq!(rt; text.as_slice(), lines.as_bytes());
    }
    Ok(())
}

/// What was filed, the places that are altered in the store, and what is told in place of a file.
const NO_FILES: [(Filed, Places, &str); 4] = [
    (TREE, &[27, 345], "Ok(HeaderAltered { tiles: 1 })"),
    (TREE, &[16], "Ok(HeaderAltered { tiles: 1 })"),
    (TILES, &[345], "Err(NotSealedSo)"),
    (LATER_TREES, &[179], "Err(NotSealedSo)"),
];

fn text_of(alloc: Global, sources: &mut Sources) -> Result<String, Fail> {
    let gathered = gather_from(alloc, sources);
    Ok(format!(in alloc; "{gathered:?}")?)
}

#[test]
fn a_store_without_evidence_is_told_why(rt: HostRuntime) -> Result<(), Fail> {
    let alloc = rt.alloc();
    for (filed, ours, why) in NO_FILES {
        let mut sources = damaged(alloc, &filed, ours, &[])?;
        assert_eq!(rt; text_of(alloc, &mut sources)?.as_str(), why);
    }
    Ok(())
}

#[test]
fn a_notary_has_to_hold_the_tree(rt: HostRuntime) -> Result<(), Fail> {
    let alloc = rt.alloc();
    let mut sources = damaged(alloc, &TREE, &[345], &[])?;
    sources.notary = lacking(alloc)?;
    let why = "Err(SealMissing { name: Node { level: 3, index: 0 } })";
    assert_eq!(rt; text_of(alloc, &mut sources)?.as_str(), why);
    sources.notary = empty(alloc);
    assert_eq!(rt; text_of(alloc, &mut sources)?.as_str(), "Ok(Unsealed)");
    Ok(())
}
