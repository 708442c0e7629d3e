//! New stores, made of an altered one and its copy.

use crate::desk::{Held, ID, Kept, empty, header_of, store_of};
use crate::sources::{
    CHAIN, Filed, LATER_TREES, Places, Sources, TILES, TREE, damaged, lacking, whole,
};
use disk_model::MemDisk;
use notary_link::MemNotary;
use restore_copy::{RestoreFail, Restored, restore};
use std::alloc::Global;
use std::process::Abort;
use std::test::Fail;
use validator::{put_verdict, validate};

/// Runs of granules, each by its first and its last one.
type Granules = &'static [(u32, u32)];

/// What was filed, the places that are altered in the store and in the copy, how many granules are kept, which ones are
/// lost, and what a validation then finds of the target.
type Case = (Filed, Places, Places, u32, Granules, &'static str);

const RESTORED: [Case; 10] = [
    (TREE, &[345], &[261], 8, &[], "clean 1"),
    (TREE, &[345], &[345], 7, &[(5, 5)], "altered 1 from 0"),
    (
        TREE,
        &[135, 219, 261, 429],
        &[135, 219, 261, 345, 429],
        4,
        &[(0, 0), (2, 3), (7, 7)],
        "altered 1 from 0",
    ),
    // one of the two has another header
    (TREE, &[345], &[27], 7, &[(5, 5)], "altered 1 from 0"),
    (TREE, &[16], &[303], 7, &[(4, 4)], "altered 1 from 0"),
    // a tile goes as a whole
    (TILES, &[345], &[261], 8, &[], "clean 4"),
    (TILES, &[345], &[303], 6, &[(4, 5)], "altered 4 from 2"),
    // and with those before it
    (CHAIN, &[345], &[], 8, &[], "clean 4"),
    (CHAIN, &[345], &[261], 4, &[(4, 7)], "altered 4 from 2"),
    (
        LATER_TREES,
        &[137, 179],
        &[137],
        4,
        &[(0, 3)],
        "altered 3 from 0",
    ),
];

fn restore_to(
    alloc: Global,
    sources: &mut Sources,
    target: &mut MemDisk,
) -> Result<Option<Restored>, RestoreFail> {
    restore(
        alloc,
        &mut sources.store,
        &mut sources.copy,
        target,
        &mut sources.notary,
        ID,
    )
}

fn found(alloc: Global, target: &mut MemDisk, notary: &mut MemNotary) -> Result<Vec<u8>, Fail> {
    let verdict = validate(alloc, target, notary, ID, 500)?;
    let mut text = Vec::new(alloc);
    put_verdict(alloc, &mut text, verdict)?;
    Ok(text)
}

fn is_whole(alloc: Global, target: &MemDisk, filed: &Filed) -> Result<bool, Fail> {
    Ok(target.bytes() == whole(alloc, filed)?.bytes())
}

/// What is restored, what is then found of the target, and whether that is what was filed.
fn made(
    alloc: Global,
    sources: &mut Sources,
    filed: &Filed,
) -> Result<(Restored, Vec<u8>, bool), Fail> {
    let mut target = MemDisk::new(alloc);
    let restored = restore_to(alloc, sources, &mut target)?.ok_or("nothing")?;
    let text = found(alloc, &mut target, &mut sources.notary)?;
    let is_whole = is_whole(alloc, &target, filed)?;
    Ok((restored, text, is_whole))
}

fn restores(rt: &impl Abort, alloc: Global, case: Case) -> Result<(), Fail> {
    let (filed, ours, theirs, kept, lost, verdict) = case;
    let mut sources = damaged(alloc, &filed, ours, theirs)?;
    let (restored, text, is_whole) = made(alloc, &mut sources, &filed)?;
    assert_eq!(rt; (restored.kept, restored.lost.as_slice()), (kept, lost));
    assert_eq!(rt;
        (text.as_slice(), is_whole),
        (verdict.as_bytes(), lost.is_empty())
    );
    Ok(())
}

#[test]
fn a_granule_is_lost_where_both_were_altered(rt: HostRuntime) -> Result<(), Fail> {
    for case in RESTORED {
        restores(&rt, rt.alloc(), case)?;
    }
    Ok(())
}

/// What was filed: one row, and seven granules without one.
const ONE_ROW: Filed = Filed {
    k: 3,
    algs: 3,
    held: &[Kept::Table, Kept::Row(2, 0, 0)],
};

/// What the store and the copy hold then, and what the target is to hold.
const TARGETS: [(Held, Held, Held); 2] = [
    (
        &[
            Kept::Table,
            Kept::Row(2, 0, 1),
            Kept::Turn(1, 8),
            Kept::Row(3, 500, 1),
            Kept::Row(4, 620, 2),
            Kept::Turn(2, 10),
            Kept::Row(5, 560, 3),
            Kept::Row(6, 690, 4),
            Kept::Row(7, 670, 5),
        ],
        &[Kept::Table, Kept::Row(2, 0, 0), Kept::Row(8, 510, 9)],
        &[
            Kept::Turn(1, 8),
            Kept::Turn(2, 10),
            Kept::Table,
            Kept::Row(2, 0, 0),
            Kept::Row(3, 500, 1),
            Kept::Row(5, 560, 3),
            Kept::Row(4, 620, 2),
            Kept::Row(6, 690, 4),
            Kept::Row(7, 670, 5),
            Kept::Until(690),
        ],
    ),
    (
        &[Kept::Table, Kept::Row(2, 0, 1)],
        &[Kept::Table],
        &[Kept::Until(480)],
    ),
];

fn held_by(alloc: Global, held: Held) -> Result<MemDisk, Fail> {
    Ok(store_of(alloc, &header_of(3, 3), held)?)
}

#[test]
fn what_is_not_sealed_is_that_of_the_store(rt: HostRuntime) -> Result<(), Fail> {
    let alloc = rt.alloc();
    for (store, copy, held) in TARGETS {
        let mut sources = damaged(alloc, &ONE_ROW, &[], &[])?;
        sources.store = held_by(alloc, store)?;
        sources.copy = held_by(alloc, copy)?;
        let mut target = MemDisk::new(alloc);
        let _restored = restore_to(alloc, &mut sources, &mut target)?;
        assert_eq!(rt; target.bytes(), held_by(alloc, held)?.bytes());
    }
    Ok(())
}

/// What is told where the target has these bytes.
fn told(alloc: Global, sources: &mut Sources, there: &[u8]) -> Result<String, Fail> {
    let mut target = MemDisk::holding(alloc, there.to_vec(alloc)?);
    let restored = restore_to(alloc, sources, &mut target);
    Ok(format!(in alloc; "{restored:?}")?)
}

#[test]
fn a_target_has_at_most_a_byte(rt: HostRuntime) -> Result<(), Fail> {
    let alloc = rt.alloc();
    let mut sources = damaged(alloc, &TREE, &[], &[])?;
    let text = told(alloc, &mut sources, &[0, 0])?;
    assert_eq!(rt; text.as_str(), "Err(AlreadyThere)");
    Ok(())
}

#[test]
fn neither_of_the_two_is_a_store(rt: HostRuntime) -> Result<(), Fail> {
    let alloc = rt.alloc();
    let mut sources = damaged(alloc, &TREE, &[], &[])?;
    sources.store = MemDisk::new(alloc);
    sources.copy = MemDisk::new(alloc);
    let text = told(alloc, &mut sources, &[])?;
    assert_eq!(rt; text.as_str(), "Err(HeaderLost)");
    Ok(())
}

#[test]
fn a_notary_has_to_hold_each_granule(rt: HostRuntime) -> Result<(), Fail> {
    let alloc = rt.alloc();
    let mut sources = damaged(alloc, &TREE, &[], &[])?;
    sources.notary = lacking(alloc)?;
    let why = "Err(SealMissing { name: Node { level: 0, index: 0 } })";
    assert_eq!(rt; told(alloc, &mut sources, &[])?.as_str(), why);
    sources.notary = empty(alloc);
    assert_eq!(rt; told(alloc, &mut sources, &[0])?.as_str(), "Ok(None)");
    Ok(())
}
