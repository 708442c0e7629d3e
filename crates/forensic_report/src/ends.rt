//! The end of a report: the first change, and the diagram.

ghost use Rattle.std.specs.Prelude.{◌≡◌, ◌<◌, ◌+◌, ◌^◌, ◌++◌, IfErr, IfOk, OnOk};
ghost use Rattle.outside_words.specs.Faults.{HasCause};
ghost use Rattle.outside_words.specs.Told.{WhereTold};
ghost use Rattle.notary_link.specs.Notary.{Unchanged, GoesOn, IsCounted};
ghost use Rattle.corruption_diagram.specs.Diagram.{diagram};
ghost use Rattle.forensic_report.specs.declared.fail.AnalyseFail.TheVariants.{NotaryFault};
ghost use Rattle.forensic_report.specs.Fails.{notary_in_doubt};
ghost use Rattle.forensic_report.specs.Analysis.{bad_tiles};
ghost use Rattle.forensic_report.specs.Values.{findings_of, extent_by, FitsExamined, IsOfWriting};
ghost use Rattle.forensic_report.specs.Texts.{kept_of, first_line, bad_row, diagram_text};
ghost use Rattle.forensic_report.specs.Reporting.{Begins};

use crate::algorithm::Request;
use crate::bad::bad_row;
use crate::fail::AnalyseFail;
use crate::found::Examined;
use crate::lines::put_first;
use corruption_diagram::{first_when, grid};
use notary_link::Notary;
use std::alloc::Global;
use tuple_bytes::Blob;

/// More tiles than events that a diagram has room for.
const TOO_MANY: u32 = 65;

/// The line of the first change.
pub(crate) fn put_first_change<N: Notary>(
    alloc: Global,
    out: &mut Vec<u8>,
    notary: &mut N,
    id: u64,
    tile: u32,
    now: u64,
) -> Result<(), AnalyseFail>
    requires small { tile + 1 < 2 ^ 32 }
    ensures value { WhereTold (N.state notary.old).lists (N.state notary.new).lists (λ before after.
        OnOk result (out.new.items ≡ out.old.items ++ first_line (kept_of before id now) tile)) }
    ensures more { OnOk result (Begins out.old.items out.new.items) }
    ensures only { IfErr result IsOfWriting }
    ensures same { Unchanged (N.state notary.old) (N.state notary.new) }
    ensures asked { (N.state notary.new).asked ≡ (N.state notary.old).asked }
    ensures frame { GoesOn (N.state notary.old) (N.state notary.new) }
    ensures cause { HasCause NotaryFault (N.state notary.old).faults (N.state notary.new).faults result }
    ensures counted { IsCounted notary_in_doubt (N.state notary.old) (N.state notary.new) result }
{
    let span = first_when(notary, id, tile, now)?;
    put_first(alloc, out, tile, span)?;
    Ok(())
}

/// The diagram, where there are not too many tiles for it.
fn diagram_of<N: Notary>(
    alloc: Global,
    notary: &mut N,
    request: Request,
    examined: &Examined,
) -> Result<Option<Blob>, AnalyseFail>
    requires fits { FitsExamined examined.now }
    ensures value { WhereTold (N.state notary.old).lists (N.state notary.new).lists (λ before after.
        IfOk result (λ text. text ≡ diagram (before.batches request.id) (before.marks request.id) examined.now.tiles (bad_row (bad_tiles (extent_by examined.now) (findings_of examined.now.findings)) examined.now.tiles) request.now)) }
    ensures only { IfErr result IsOfWriting }
    ensures same { Unchanged (N.state notary.old) (N.state notary.new) }
    ensures asked { (N.state notary.new).asked ≡ (N.state notary.old).asked }
    ensures frame { GoesOn (N.state notary.old) (N.state notary.new) }
    ensures cause { HasCause NotaryFault (N.state notary.old).faults (N.state notary.new).faults result }
    ensures counted { IsCounted notary_in_doubt (N.state notary.old) (N.state notary.new) result }
{
    let tiles = examined.tiles;
    if tiles >= TOO_MANY {
        return Ok(None);
    }
    let bad = bad_row(alloc, examined)?;
    Ok(grid(alloc, notary, request.id, tiles, &bad, request.now)?)
}

/// The diagram, or a line in its place.
pub(crate) fn put_diagram<N: Notary>(
    alloc: Global,
    out: &mut Vec<u8>,
    notary: &mut N,
    request: Request,
    examined: &Examined,
) -> Result<(), AnalyseFail>
    requires fits { FitsExamined examined.now }
    ensures value { WhereTold (N.state notary.old).lists (N.state notary.new).lists (λ before after.
        OnOk result (out.new.items ≡ out.old.items ++ diagram_text (kept_of before request.id request.now) examined.now.tiles (bad_tiles (extent_by examined.now) (findings_of examined.now.findings)))) }
    ensures more { OnOk result (Begins out.old.items out.new.items) }
    ensures only { IfErr result IsOfWriting }
    ensures same { Unchanged (N.state notary.old) (N.state notary.new) }
    ensures asked { (N.state notary.new).asked ≡ (N.state notary.old).asked }
    ensures frame { GoesOn (N.state notary.old) (N.state notary.new) }
    ensures cause { HasCause NotaryFault (N.state notary.old).faults (N.state notary.new).faults result }
    ensures counted { IsCounted notary_in_doubt (N.state notary.old) (N.state notary.new) result }
{
    match diagram_of(alloc, notary, request, examined)? {
        Some(text) => out.extend_from_slice(text.as_slice())?,
        None => out.extend_from_slice(b"diagram left out\n")?,
    }
    Ok(())
}
