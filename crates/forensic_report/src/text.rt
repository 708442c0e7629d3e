//! The text of a report, written once from left to right.

ghost use Rattle.std.specs.Prelude.{◌≡◌, ◌++◌, Some, slice_get, IfErr, OnOk};
ghost use Rattle.outside_words.specs.Faults.{HasCause};
ghost use Rattle.outside_words.specs.Told.{WhereTold};
ghost use Rattle.notary_link.specs.Notary.{Unchanged, GoesOn, IsCounted};
ghost use Rattle.corruption_diagram.specs.CleanMarks.{StandFor};
ghost use Rattle.forensic_report.specs.declared.fail.AnalyseFail.TheVariants.{NotaryFault};
ghost use Rattle.forensic_report.specs.Fails.{notary_in_doubt};
ghost use Rattle.forensic_report.specs.Analysis.{Unsealed, HeaderAltered, bad_tiles};
ghost use Rattle.forensic_report.specs.Values.{findings_of, extent_by, found_of, analysis_of, FitsExamined, FitsAnalysis, IsOfWriting};
ghost use Rattle.forensic_report.specs.Texts.{Kept, kept_of, head_line, findings_text, body_text, report_text};
ghost use Rattle.forensic_report.specs.Reporting.{Begins};

use crate::algorithm::{Algorithm, Request};
use crate::bad::first_bad;
use crate::bodies::{put_granules, put_region_line, put_targets};
use crate::ends::{put_diagram, put_first_change};
use crate::fail::AnalyseFail;
use crate::found::{Analysis, Examined, Findings};
use crate::lines::{put_checks, put_every_granule, put_head};
use corruption_diagram::CleanMarks;
use notary_link::Notary;
use std::alloc::{AllocError, Global};

/// The report of an id under which nothing is filed.
#[tactic(auto, unfolding(crate::specs::Texts::report_text, crate::specs::Texts::head_line))]
fn put_unsealed(
    alloc: Global,
    out: &mut Vec<u8>,
    algorithm: Algorithm,
    id: u64,
    era: Option<u32>,
) -> Result<(), AllocError>
    ensures ok { (kept : Kept) → OnOk result (out.new.items ≡ out.old.items ++ report_text algorithm id kept (Unsealed era)) }
{
    put_head(alloc, out, algorithm, id, era, 0, b"unsealed")
}

/// The report of a header that is altered.
#[tactic(auto, unfolding(crate::specs::Texts::report_text, crate::specs::Texts::head_line))]
fn put_header_altered(
    alloc: Global,
    out: &mut Vec<u8>,
    algorithm: Algorithm,
    id: u64,
    tiles: u32,
) -> Result<(), AllocError>
    ensures ok { (kept : Kept) → OnOk result (out.new.items ≡ out.old.items ++ report_text algorithm id kept (HeaderAltered tiles)) }
{
    put_head(alloc, out, algorithm, id, None, tiles, b"header altered")?;
    put_every_granule(alloc, out, tiles)
}

/// The lines of what was found.
fn put_findings<N: Notary>(
    alloc: Global,
    out: &mut Vec<u8>,
    clean: &CleanMarks,
    notary: &mut N,
    request: Request,
    examined: &Examined,
) -> Result<(), AnalyseFail>
    requires fits { FitsExamined examined.now }
    ensures value { WhereTold (N.state notary.old).lists (N.state notary.new).lists (λ before after.
        StandFor (before.marks request.id) clean.now
        → OnOk result (out.new.items ≡ out.old.items ++ findings_text request.algorithm (extent_by examined.now) (kept_of before request.id request.now) (findings_of examined.now.findings))) }
    ensures more { OnOk result (Begins out.old.items out.new.items) }
    ensures only { IfErr result IsOfWriting }
    ensures same { Unchanged (N.state notary.old) (N.state notary.new) }
    ensures asked { (N.state notary.new).asked ≡ (N.state notary.old).asked }
    ensures frame { GoesOn (N.state notary.old) (N.state notary.new) }
    ensures cause { HasCause NotaryFault (N.state notary.old).faults (N.state notary.new).faults result }
    ensures counted { IsCounted notary_in_doubt (N.state notary.old) (N.state notary.new) result }
{
    let eras = &examined.eras;
    match &examined.findings {
        Findings::Region { first: None } => Ok(()),
        Findings::Region { first: Some(first) } => {
            let tiles = examined.tiles;
            let first = *first;
            put_region_line(alloc, out, clean, notary, request, eras, tiles, first)
        }
        Findings::Targets { targets } => {
            let targets = targets.as_slice();
            put_targets(alloc, out, clean, notary, request, eras, targets)
        }
        Findings::Leaves { found } => {
            let granules = found.granules.as_slice();
            put_granules(alloc, out, clean, notary, request, eras, granules)?;
            put_checks(alloc, out, found.checks)?;
            Ok(())
        }
    }
}

/// What comes behind the first line, where a tile is bad, and this is the first one.
fn put_altered<N: Notary>(
    alloc: Global,
    out: &mut Vec<u8>,
    notary: &mut N,
    request: Request,
    examined: &Examined,
    tile: u32,
) -> Result<(), AnalyseFail>
    requires fits { FitsExamined examined.now }
    requires first { slice_get (bad_tiles (extent_by examined.now) (findings_of examined.now.findings)) 0 ≡ Some tile }
    ensures value { WhereTold (N.state notary.old).lists (N.state notary.new).lists (λ before after.
        OnOk result (out.new.items ≡ out.old.items ++ body_text request.algorithm (kept_of before request.id request.now) (found_of examined.now))) }
    ensures more { OnOk result (Begins out.old.items out.new.items) }
    ensures only { IfErr result IsOfWriting }
    ensures same { Unchanged (N.state notary.old) (N.state notary.new) }
    ensures asked { (N.state notary.new).asked ≡ (N.state notary.old).asked }
    ensures frame { GoesOn (N.state notary.old) (N.state notary.new) }
    ensures cause { HasCause NotaryFault (N.state notary.old).faults (N.state notary.new).faults result }
    ensures counted { IsCounted notary_in_doubt (N.state notary.old) (N.state notary.new) result }
{
    let clean = CleanMarks::read(alloc, notary, request.id)?;
    put_findings(alloc, out, &clean, notary, request, examined)?;
    put_first_change(alloc, out, notary, request.id, tile, request.now)?;
    put_diagram(alloc, out, notary, request, examined)?;
    Ok(())
}

/// The report of what was found.
fn put_found<N: Notary>(
    alloc: Global,
    out: &mut Vec<u8>,
    notary: &mut N,
    request: Request,
    examined: &Examined,
) -> Result<(), AnalyseFail>
    requires fits { FitsExamined examined.now }
    ensures value { WhereTold (N.state notary.old).lists (N.state notary.new).lists (λ before after.
        OnOk result (out.new.items ≡ out.old.items ++ report_text request.algorithm request.id (kept_of before request.id request.now) (found_of examined.now))) }
    ensures begins { OnOk result (Begins (out.old.items ++ head_line request.algorithm request.id (found_of examined.now)) out.new.items) }
    ensures only { IfErr result IsOfWriting }
    ensures same { Unchanged (N.state notary.old) (N.state notary.new) }
    ensures asked { (N.state notary.new).asked ≡ (N.state notary.old).asked }
    ensures frame { GoesOn (N.state notary.old) (N.state notary.new) }
    ensures cause { HasCause NotaryFault (N.state notary.old).faults (N.state notary.new).faults result }
    ensures counted { IsCounted notary_in_doubt (N.state notary.old) (N.state notary.new) result }
{
    let Request { algorithm, id, .. } = request;
    let (era, count) = (examined.era, examined.count);
    match first_bad(examined) {
        None => {
            put_head(alloc, out, algorithm, id, era, count, b"clean")?;
            Ok(())
        }
        Some(tile) => {
            put_head(alloc, out, algorithm, id, era, count, b"altered")?;
            put_altered(alloc, out, notary, request, examined, tile)?;
            Ok(())
        }
    }
}

/// The report of an analysis.
pub(crate) fn put_report<N: Notary>(
    alloc: Global,
    out: &mut Vec<u8>,
    notary: &mut N,
    request: Request,
    analysis: &Analysis,
) -> Result<(), AnalyseFail>
    requires fits { FitsAnalysis analysis.now }
    ensures value { WhereTold (N.state notary.old).lists (N.state notary.new).lists (λ before after.
        OnOk result (out.new.items ≡ out.old.items ++ report_text request.algorithm request.id (kept_of before request.id request.now) (analysis_of analysis.now))) }
    ensures begins { OnOk result (Begins (out.old.items ++ head_line request.algorithm request.id (analysis_of analysis.now)) out.new.items) }
    ensures only { IfErr result IsOfWriting }
    ensures same { Unchanged (N.state notary.old) (N.state notary.new) }
    ensures asked { (N.state notary.new).asked ≡ (N.state notary.old).asked }
    ensures frame { GoesOn (N.state notary.old) (N.state notary.new) }
    ensures cause { HasCause NotaryFault (N.state notary.old).faults (N.state notary.new).faults result }
    ensures counted { IsCounted notary_in_doubt (N.state notary.old) (N.state notary.new) result }
{
    match analysis {
        Analysis::Unsealed { era } => {
            put_unsealed(alloc, out, request.algorithm, request.id, *era)?;
            Ok(())
        }
        Analysis::HeaderAltered { tiles } => {
            let tiles = *tiles;
            put_header_altered(alloc, out, request.algorithm, request.id, tiles)?;
            Ok(())
        }
        Analysis::Found { examined } => put_found(alloc, out, notary, request, examined),
    }
}
