//! The lines of what was found, with spans that a notary is asked for.

ghost use Rattle.std.specs.Prelude.{◌≡◌, ◌<◌, ◌≤◌, ◌+◌, ◌++◌, All, IfErr, OnOk};
ghost use Rattle.std.specs.List.{flat_map};
ghost use Rattle.outside_words.specs.Faults.{HasCause};
ghost use Rattle.outside_words.specs.Told.{WhereTold};
ghost use Rattle.notary_link.specs.Notary.{Unchanged, GoesOn, IsCounted};
ghost use Rattle.digest_model.specs.Layout.{layout_by, first_granule, max_granules};
ghost use Rattle.corruption_diagram.specs.CleanMarks.{StandFor};
ghost use Rattle.forensic_report.specs.declared.fail.AnalyseFail.TheVariants.{NotaryFault};
ghost use Rattle.forensic_report.specs.Fails.{notary_in_doubt};
ghost use Rattle.forensic_report.specs.Texts.{kept_of, region_line, target_line, granule_line};
ghost use Rattle.forensic_report.specs.Reporting.{Begins};
ghost use Rattle.forensic_report.specs.Values.{IsOfWriting};
ghost use Rattle.forensic_report.specs.Writing.{IsFailing};

use crate::algorithm::Request;
use crate::asking::{Recent, least_from, span_after};
use crate::fail::AnalyseFail;
use crate::lines::{put_granule, put_region, put_target};
use corruption_diagram::{CleanMarks, Span, when_by};
use notary_link::Notary;
use policy_eras::Eras;
use std::alloc::Global;

/// The line of a region.
pub(crate) fn put_region_line<N: Notary>(
    alloc: Global,
    out: &mut Vec<u8>,
    clean: &CleanMarks,
    notary: &mut N,
    request: Request,
    eras: &Eras,
    tiles: u32,
    first: u32,
) -> Result<(), AnalyseFail>
    requires some { first < tiles }
    requires within { first_granule (layout_by eras.now) tiles ≤ max_granules }
    ensures value { WhereTold (N.state notary.old).lists (N.state notary.new).lists (λ before after.
        StandFor (before.marks request.id) clean.now
        → OnOk result (out.new.items ≡ out.old.items ++ region_line (layout_by eras.now) tiles (kept_of before request.id request.now) first)) }
    ensures more { OnOk result (Begins out.old.items out.new.items) }
    ensures only { IfErr result IsOfWriting }
    ensures same { Unchanged (N.state notary.old) (N.state notary.new) }
    ensures asked { (N.state notary.new).asked ≡ (N.state notary.old).asked }
    ensures frame { GoesOn (N.state notary.old) (N.state notary.new) }
    ensures cause { HasCause NotaryFault (N.state notary.old).faults (N.state notary.new).faults result }
    ensures counted { IsCounted notary_in_doubt (N.state notary.old) (N.state notary.new) result }
{
    let from = least_from(clean, notary, request.id, first, tiles, request.now)?;
    let span = Span {
        from,
        to: request.now,
    };
    put_region(alloc, out, eras, tiles, first, span)?;
    Ok(())
}

/// The lines of tiles that fail.
pub(crate) fn put_targets<N: Notary>(
    alloc: Global,
    out: &mut Vec<u8>,
    clean: &CleanMarks,
    notary: &mut N,
    request: Request,
    eras: &Eras,
    targets: &[(u32, u16)],
) -> Result<(), AnalyseFail>
    requires failing { All (IsFailing (layout_by eras.now)) targets.now }
    ensures value { WhereTold (N.state notary.old).lists (N.state notary.new).lists (λ before after.
        StandFor (before.marks request.id) clean.now
        → OnOk result (out.new.items ≡ out.old.items ++ flat_map (target_line request.algorithm (layout_by eras.now) (kept_of before request.id request.now)) targets.now)) }
    ensures more { OnOk result (Begins out.old.items out.new.items) }
    ensures only { IfErr result IsOfWriting }
    ensures same { Unchanged (N.state notary.old) (N.state notary.new) }
    ensures asked { (N.state notary.new).asked ≡ (N.state notary.old).asked }
    ensures frame { GoesOn (N.state notary.old) (N.state notary.new) }
    ensures cause { HasCause NotaryFault (N.state notary.old).faults (N.state notary.new).faults result }
    ensures counted { IsCounted notary_in_doubt (N.state notary.old) (N.state notary.new) result }
{
    for failing in targets {
        let tile = failing.0;
        let span = when_by(clean, notary, request.id, tile, request.now)?;
        put_target(alloc, out, request.algorithm, eras, tile, failing.1, span)?;
    }
    Ok(())
}

/// The lines of granules. Those of one tile follow each other, so its span is asked for once.
pub(crate) fn put_granules<N: Notary>(
    alloc: Global,
    out: &mut Vec<u8>,
    clean: &CleanMarks,
    notary: &mut N,
    request: Request,
    eras: &Eras,
    granules: &[u32],
) -> Result<(), AnalyseFail>
    requires within { All (λ g. g < max_granules) granules.now }
    ensures value { WhereTold (N.state notary.old).lists (N.state notary.new).lists (λ before after.
        StandFor (before.marks request.id) clean.now
        → OnOk result (out.new.items ≡ out.old.items ++ flat_map (granule_line (layout_by eras.now) (kept_of before request.id request.now)) granules.now)) }
    ensures more { OnOk result (Begins out.old.items out.new.items) }
    ensures only { IfErr result IsOfWriting }
    ensures same { Unchanged (N.state notary.old) (N.state notary.new) }
    ensures asked { (N.state notary.new).asked ≡ (N.state notary.old).asked }
    ensures frame { GoesOn (N.state notary.old) (N.state notary.new) }
    ensures cause { HasCause NotaryFault (N.state notary.old).faults (N.state notary.new).faults result }
    ensures counted { IsCounted notary_in_doubt (N.state notary.old) (N.state notary.new) result }
{
    let mut recent = None;
    for granule in granules {
        let granule = *granule;
        let tile = eras.tiles(granule);
        let span = span_after(recent, clean, notary, request.id, tile, request.now)?;
        recent = Some(Recent { tile, span });
        put_granule(alloc, out, granule, span)?;
    }
    Ok(())
}
