//! Stores in memory, and notaries that hold their digests.

ghost use Rattle.std.specs.Prelude.{◌≡◌, None};
ghost use Rattle.tuple_bytes.specs.Spelling.{FitsHeader};
ghost use Rattle.forensic_report.specs.declared.algorithm.Algorithm.TheVariants.{Mono};
ghost use Rattle.notary_link.specs.declared.name.Name.TheVariants.{Cum};

use disk_model::MemDisk;
use forensic_report::{Algorithm, AnalyseFail, analyse};
use history_model::encode_head;
use notary_link::{Mark, MemNotary, Name, Notary, NotaryLimits, Outcome, Seal};
use std::alloc::{AllocError, Global};
use std::test::Fail;
use store_engine::Store;
use tuple_bytes::{Header, MAX_ALGORITHMS, MAX_EXPONENT};
use validator::notarize;

pub(crate) const ID: u64 = 7;

/// A table that is made, as its item is spelled.
const CREATE: [u8; 25] = [
    1, 0, 0, 0, 1, 0, 0, 0, 0, 0, 0, 0, 0, 0, 1, 1, 1, b't', 2, 1, b'k', 1, 1, b'v', 1,
];

/// A row that is inserted, as its item is spelled, but for its number, its moment and its key.
const INSERT: [u8; 37] = [
    1, 0, 0, 0, 0, 0, 0, 0, 0, 0, 0, 0, 0, 0, 1, 2, 1, b't', 2, 1, 0, 0, 0, 0, 0, 0, 0, 0, 1, 0, 0,
    0, 0, 0, 0, 0, 0,
];

fn insert(number: u8, moment: u16, key: u8) -> [u8; 37] {
    let [high, low] = moment.to_be_bytes();
    let mut spelled = INSERT;
    spelled[4] = number;
    spelled[11] = high;
    spelled[12] = low;
    spelled[27] = key;
    spelled
}

/// The header of a store of granules of a minute.
pub(crate) fn header_of(k: u8, algs: u8) -> Header
    ensures fits { FitsHeader result }
{
    Header {
        id: ID,
        epoch: 0,
        width: 60,
        k: k.min(MAX_EXPONENT),
        algs: algs.min(MAX_ALGORITHMS),
    }
}

/// An item of a store.
#[derive(Clone, Copy)]
pub(crate) enum Kept {
    /// The table is made, at moment 0.
    Table,
    /// A row, by its number, its moment and its key.
    Row(u8, u16, u8),
    /// From this tile on, which begins at this granule, tiles have two granules each, and the tree.
    Turn(u8, u8),
    /// What comes later has this moment at least.
    Until(u16),
}

/// What a store holds, in file order.
pub(crate) type Held = &'static [Kept];

fn record(bytes: &mut Vec<u8>, size: u8, item: &[u8]) -> Result<(), AllocError> {
    bytes.extend_from_slice(&[0xA7, 0, 0, 0, size])?;
    bytes.extend_from_slice(item)
}

fn add(bytes: &mut Vec<u8>, kept: Kept) -> Result<(), AllocError> {
    match kept {
        Kept::Table => record(bytes, 25, &CREATE),
        Kept::Row(number, moment, key) => record(bytes, 37, &insert(number, moment, key)),
        Kept::Turn(tile, granule) => {
            record(bytes, 11, &[3, 0, 0, 0, tile, 0, 0, 0, granule, 1, 2])
        }
        Kept::Until(moment) => {
            let [high, low] = moment.to_be_bytes();
            record(bytes, 9, &[2, 0, 0, 0, 0, 0, 0, high, low])
        }
    }
}

/// A store that holds so much.
pub(crate) fn store_of(alloc: Global, header: &Header, held: Held) -> Result<MemDisk, AllocError>
    requires fits { FitsHeader header.now }
{
    let head = encode_head(header);
    let mut bytes = Vec::new(alloc);
    bytes.extend_from_slice(&head)?;
    for kept in held {
        add(&mut bytes, *kept)?;
    }
    bytes.push(0)?;
    Ok(MemDisk::holding(alloc, bytes))
}

/// A notary that holds nothing yet.
pub(crate) fn empty(alloc: Global) -> MemNotary {
    MemNotary::new(
        alloc,
        NotaryLimits {
            seals: 1000,
            marks: 8,
        },
    )
}

/// The seal of the chain over the first tile, of some digest.
pub(crate) fn seal() -> Seal
    ensures { result.name ≡ Cum 0 }
{
    Seal {
        name: Name::Cum { tile: 0 },
        digest: [0; 32],
    }
}

/// Files the digests of a store at these clock seconds.
pub(crate) fn file(
    alloc: Global,
    notary: &mut MemNotary,
    header: &Header,
    held: Held,
    now: u64,
) -> Result<(), Fail>
    requires fits { FitsHeader header.now }
{
    let mut disk = store_of(alloc, header, held)?;
    let mut store = Store::open_store(alloc, &mut disk, ID)?;
    notarize(alloc, &mut store, &mut disk, notary, now)?;
    Ok(())
}

/// The era that is named; the chain over all tiles is that of none.
fn era_named(algorithm: Algorithm, era: Option<u32>) -> Option<u32>
    ensures mono { algorithm ≡ Mono → result ≡ None }
{
    match algorithm {
        Algorithm::Mono => None,
        _ => era,
    }
}

/// Whether a report says that something is altered, and its text.
pub(crate) fn report(
    alloc: Global,
    disk: &mut MemDisk,
    notary: &mut MemNotary,
    algorithm: Algorithm,
    era: Option<u32>,
    now: u64,
) -> Result<(bool, Vec<u8>), AnalyseFail> {
    let era = era_named(algorithm, era);
    let report = analyse(alloc, disk, notary, ID, algorithm, era, now)?;
    let text = report.text.as_slice().to_vec(alloc)?;
    Ok((report.altered, text))
}

/// What was filed at one second, and what stands at another.
#[derive(Clone, Copy)]
pub(crate) struct Stood {
    pub algorithm: Algorithm,
    pub k: u8,
    pub filed: Held,
    pub at: u64,
    pub marks: &'static [(u64, u32, Outcome)],
    pub stored: Held,
    pub now: u64,
}

/// The report of a store with all chains.
pub(crate) fn report_of(alloc: Global, stood: &Stood) -> Result<(bool, Vec<u8>), Fail> {
    let header = header_of(stood.k, 3);
    let mut notary = empty(alloc);
    file(alloc, &mut notary, &header, stood.filed, stood.at)?;
    for (moment, tiles, outcome) in stood.marks {
        let mark = Mark {
            moment: *moment,
            tiles: *tiles,
            outcome: *outcome,
        };
        notary.mark(ID, mark)?;
    }
    let mut disk = store_of(alloc, &header, stood.stored)?;
    Ok(report(
        alloc,
        &mut disk,
        &mut notary,
        stood.algorithm,
        None,
        stood.now,
    )?)
}

const TURNED: Held = &[Kept::Turn(1, 4), Kept::Row(1, 300, 1)];

const CHANGED: Held = &[Kept::Turn(1, 4), Kept::Row(1, 300, 2)];

/// A store of two eras, of which three tiles are sealed, and whose row in granule 5 was changed; and the
/// notary.
pub(crate) fn turned(alloc: Global) -> Result<(MemDisk, MemNotary), Fail> {
    let header = header_of(2, 1);
    let mut notary = empty(alloc);
    file(alloc, &mut notary, &header, &[], 240)?;
    file(alloc, &mut notary, &header, TURNED, 480)?;
    let mark = Mark {
        moment: 480,
        tiles: 3,
        outcome: Outcome::Clean,
    };
    notary.mark(ID, mark)?;
    Ok((store_of(alloc, &header, CHANGED)?, notary))
}
