//! A store and its copy, altered since both were filed, and the notary.

use crate::desk::{Held, ID, Kept, empty, file, header_of, seal, store_of};
use disk_model::{Disk, MemDisk};
use notary_link::{MemNotary, Notary};
use std::alloc::{AllocError, Global};
use std::test::Fail;

/// What is filed at second 480: the exponent and the chains of the first tiles, and what a store of these holds.
#[derive(Clone, Copy)]
pub(crate) struct Filed {
    pub k: u8,
    pub algs: u8,
    pub held: Held,
}

/// A table, and a row in each of the first eight granules. That of granule G ends at place 135 + 42 * G.
const WORKED: Held = &[
    Kept::Table,
    Kept::Row(2, 0, 0),
    Kept::Row(3, 60, 1),
    Kept::Row(4, 120, 2),
    Kept::Row(5, 180, 3),
    Kept::Row(6, 240, 4),
    Kept::Row(7, 300, 5),
    Kept::Row(8, 360, 6),
    Kept::Row(9, 420, 7),
    Kept::Until(480),
];

/// Of three eras two are sealed. The rows lie in granules 1 and 5, and end at places 137 and 179.
const TURNED: Held = &[
    Kept::Turn(1, 4),
    Kept::Turn(3, 8),
    Kept::Row(1, 60, 1),
    Kept::Row(2, 300, 1),
    Kept::Until(480),
];

/// The worked rows in one tile with the tree, in four tiles with chains of their own, and in four under one chain alone.
pub(crate) const TREE: Filed = Filed {
    k: 3,
    algs: 3,
    held: WORKED,
};

pub(crate) const TILES: Filed = Filed {
    k: 1,
    algs: 1,
    held: WORKED,
};

pub(crate) const CHAIN: Filed = Filed {
    k: 1,
    algs: 0,
    held: WORKED,
};

/// Eras that all have the tree, and such of which the first one has none.
pub(crate) const TREES: Filed = Filed {
    k: 2,
    algs: 3,
    held: TURNED,
};

pub(crate) const LATER_TREES: Filed = Filed {
    k: 2,
    algs: 1,
    held: TURNED,
};

/// Places of a store that are altered.
pub(crate) type Places = &'static [u64];

#[derive(Drop)]
pub(crate) struct Sources {
    pub store: MemDisk,
    pub copy: MemDisk,
    pub notary: MemNotary,
}

/// A store that holds what was filed.
pub(crate) fn whole(alloc: Global, filed: &Filed) -> Result<MemDisk, AllocError> {
    store_of(alloc, &header_of(filed.k, filed.algs), filed.held)
}

/// The same with a 1 at each of these places.
fn altered(alloc: Global, filed: &Filed, places: Places) -> Result<MemDisk, Fail> {
    let mut disk = whole(alloc, filed)?;
    for place in places {
        disk.write_at(*place, &[1])?;
    }
    Ok(disk)
}

fn notary_of(alloc: Global, filed: &Filed) -> Result<MemNotary, Fail> {
    let mut notary = empty(alloc);
    let header = header_of(filed.k, filed.algs);
    file(alloc, &mut notary, &header, filed.held, 480)?;
    Ok(notary)
}

/// What was filed, altered at these places of the store and at these of the copy.
pub(crate) fn damaged(
    alloc: Global,
    filed: &Filed,
    ours: Places,
    theirs: Places,
) -> Result<Sources, Fail> {
    let notary = notary_of(alloc, filed)?;
    let store = altered(alloc, filed, ours)?;
    let copy = altered(alloc, filed, theirs)?;
    Ok(Sources {
        store,
        copy,
        notary,
    })
}

/// A notary that has the header of the worked rows in one tile, and not the tree of that tile.
pub(crate) fn lacking(alloc: Global) -> Result<MemNotary, Fail> {
    let mut notary = empty(alloc);
    file(alloc, &mut notary, &header_of(3, 3), &[], 0)?;
    notary.file(ID, 1, 480, &[seal()])?;
    Ok(notary)
}
