//! Reading a piece.

ghost use Rattle.std.specs.Prelude.{◌≡◌, ◌≤◌, ◌+◌, ◌++◌, ℕ, List, [], None, Some, IfSome, IfOk, IfErr};
ghost use Rattle.std.specs.Bool.{MatchBool};
ghost use Rattle.std.specs.List.{All};
ghost use Rattle.outside_words.specs.Faults.{HasCause, HidesNoFault};
ghost use Rattle.disk_words.specs.Disk.{Unchanged, GoesOn};
ghost use Rattle.tuple_bytes.specs.declared.header.Header.{Header};
ghost use Rattle.tuple_bytes.specs.declared.item.Item.{Item};
ghost use Rattle.tuple_bytes.specs.Spelling.{FitsHeader};
ghost use Rattle.history_model.specs.Stored.{IsStorable, stored};
ghost use Rattle.audit_model.specs.Altered.{history_with};
ghost use Rattle.chain_state.specs.Chained.{steps_of};
ghost use Rattle.segment_file.specs.declared.fail.SegmentFail.TheVariants as segments;
ghost use Rattle.segment_file.specs.Fail as segment_fails;
ghost use Rattle.audit_steps.specs.Auditing.{AreTakenOrNone, IsUnderWay};
ghost use Rattle.audit_steps.specs.Steps.{FitsTogether, IsPieceOf};

use crate::auditing::Auditing;
use chain_state::Chains;
use disk_model::Disk;
use history_model::Spelled;
use segment_file::{SegmentFail, read_header, read_part};
use std::alloc::{AllocError, Global};
use step_count::{Ledger, Steps};
use tuple_bytes::{Header, MAX_FILE};

/// How many items a piece reads at most.
const PIECE: u32 = 256;

/// A piece that was read, and whether no item is left behind it.
#[derive(Drop)]
pub(crate) struct Piece {
    pub auditing: Auditing,
    pub last: bool,
}

/// An audit of which nothing is read; none where there is no header with this id.
pub(crate) fn begin<D: Disk>(
    alloc: Global,
    disk: &mut D,
    id: u64,
) -> Result<Option<Auditing>, SegmentFail>
    ensures value { IfSome (D.state disk.old).reads (λ bytes. IfOk result (λ begun. IfSome begun (λ a. IsUnderWay id bytes a × (a.read ≡ 0)))) }
    ensures none { IfSome (D.state disk.old).reads (λ bytes. IfOk result (λ begun. begun ≡ None → history_with id (stored bytes) ≡ None)) }
    ensures fits { IfOk result (λ begun. IfSome begun FitsTogether) }
    ensures none_other { IfErr result segment_fails.IsOfReading }
    ensures same { Unchanged (D.state disk.old) (D.state disk.new) }
    ensures frame { GoesOn (D.state disk.old) (D.state disk.new) }
    ensures cause { HasCause segments.DiskFault (D.state disk.old).faults (D.state disk.new).faults result }
    ensures counted { HidesNoFault (D.state disk.old).faults (D.state disk.new).faults result }
{
    match read_header(disk)? {
        Some(header) => {
            if header.id == id {
                Ok(Some(at_head(alloc, &header)?))
            } else {
                Ok(None)
            }
        }
        None => Ok(None),
    }
}

/// Of no item.
fn at_head(alloc: Global, header: &Header) -> Result<Auditing, AllocError>
    requires fits { FitsHeader header.now }
    ensures header { IfOk result (λ a. a.header ≡ header.now) }
    ensures read { IfOk result (λ a. a.read ≡ 0) }
    ensures place { IfOk result (λ a. a.place ≡ 64) }
    ensures chains { IfOk result (λ a. AreTakenOrNone header.now [] a.chains) }
    ensures fits { IfOk result FitsTogether }
{
    let chains = Chains::new(alloc, header)?;
    Ok(Auditing {
        header: *header,
        read: 0,
        place: 64,
        chains: Some(chains),
    })
}

/// Takes more items into chains, as long as these rise.
fn take_items<L: Ledger>(
    chains: Option<Chains>,
    items: &Spelled,
    steps: &mut Steps<L>,
) -> Result<Option<Chains>, AllocError>
    requires storable { All IsStorable items.now }
    ensures value { (header : Header) (taken : List Item) → AreTakenOrNone header taken chains → IfOk result (AreTakenOrNone header (taken ++ items.now)) }
    ensures under { (header : Header) → IfSome chains (λ c. c.header ≡ header) → IfOk result (λ later. IfSome later (λ c. c.header ≡ header)) }
    ensures steps { steps.new ≤ steps.old + steps_of items.now }
{
    match chains {
        Some(mut chains) => {
            if take_all(&mut chains, items, steps)? {
                Ok(Some(chains))
            } else {
                Ok(None)
            }
        }
        None => Ok(None),
    }
}

/// The same where there are chains; false where a granule fell or was too great.
fn take_all<L: Ledger>(
    chains: &mut Chains,
    items: &Spelled,
    steps: &mut Steps<L>,
) -> Result<bool, AllocError>
    requires storable { All IsStorable items.now }
    ensures value { (header : Header) (taken : List Item) → AreTakenOrNone header taken (Some chains.old)
        → IfOk result (λ b. MatchBool b (AreTakenOrNone header (taken ++ items.now) (Some chains.new)) (AreTakenOrNone header (taken ++ items.now) None)) }
    ensures under { chains.new.header ≡ chains.old.header }
    ensures steps { steps.new ≤ steps.old + steps_of items.now }
{
    for spelling in items.as_slice() {
        if !chains.take(spelling.as_slice(), steps)? {
            return Ok(false);
        }
    }
    Ok(true)
}

/// Reads the next piece. So many items as a file has bytes are never read: that is the one refusal without
/// a cause, and no file brings it.
pub(crate) fn read_piece<D: Disk, L: Ledger>(
    alloc: Global,
    disk: &mut D,
    auditing: Auditing,
    steps: &mut Steps<L>,
) -> Result<Piece, SegmentFail>
    requires fits { FitsTogether auditing }
    ensures value { IfSome (D.state disk.old).reads (λ bytes. (id : ℕ) → IsUnderWay id bytes auditing → IfOk result (IsPieceOf id bytes auditing)) }
    ensures fits { IfOk result (λ piece. FitsTogether piece.auditing) }
    ensures steps { IfSome (D.state disk.old).reads (λ bytes. (id : ℕ) → IsUnderWay id bytes auditing → steps.new ≤ steps.old + 512) }
    ensures none_other { IfErr result segment_fails.IsOfReading }
    ensures same { Unchanged (D.state disk.old) (D.state disk.new) }
    ensures frame { GoesOn (D.state disk.old) (D.state disk.new) }
    ensures cause { HasCause segments.DiskFault (D.state disk.old).faults (D.state disk.new).faults result }
    ensures counted { HidesNoFault (D.state disk.old).faults (D.state disk.new).faults result }
{
    if auditing.read > MAX_FILE as u32 {
        return Err(SegmentFail::NoMemory);
    }
    let part = read_part(alloc, disk, auditing.place, PIECE)?;
    let chains = take_items(auditing.chains, &part.items, steps)?;
    Ok(Piece {
        auditing: Auditing {
            header: auditing.header,
            read: auditing.read + PIECE,
            place: part.end,
            chains,
        },
        last: part.last,
    })
}
