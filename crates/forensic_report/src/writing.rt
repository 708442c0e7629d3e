//! The text of a report.

ghost use Rattle.std.specs.Prelude.{◌≡◌, IfErr, IfOk};
ghost use Rattle.outside_words.specs.Faults.{HasCause};
ghost use Rattle.outside_words.specs.Told.{WhereTold};
ghost use Rattle.notary_link.specs.Notary.{Unchanged, GoesOn, IsCounted};
ghost use Rattle.forensic_report.specs.declared.fail.AnalyseFail.TheVariants.{NotaryFault};
ghost use Rattle.forensic_report.specs.Fails.{notary_in_doubt};
ghost use Rattle.forensic_report.specs.Reporting.{Begins};
ghost use Rattle.forensic_report.specs.Texts.{head_line, report_text, kept_of};
ghost use Rattle.forensic_report.specs.Values.{analysis_of, FitsAnalysis, IsOfWriting};

use crate::algorithm::Request;
use crate::fail::AnalyseFail;
use crate::found::Analysis;
use crate::text::put_report;
use notary_link::Notary;
use std::alloc::Global;
use tuple_bytes::Blob;

/// Writes the report of what was found, by the moments and the marks that the notary has.
pub(crate) fn write_report<N: Notary>(
    alloc: Global,
    notary: &mut N,
    request: Request,
    analysis: &Analysis,
) -> Result<Blob, AnalyseFail>
    requires fits { FitsAnalysis analysis.now }
    ensures begins { IfOk result (λ text. Begins (head_line request.algorithm request.id (analysis_of analysis.now)) text) }
    ensures text { WhereTold (N.state notary.old).lists (N.state notary.new).lists (λ before after.
        IfOk result (λ text. text ≡ report_text request.algorithm request.id (kept_of before request.id request.now) (analysis_of analysis.now))) }
    ensures only { IfErr result IsOfWriting }
    ensures same { Unchanged (N.state notary.old) (N.state notary.new) }
    ensures asked { (N.state notary.new).asked ≡ (N.state notary.old).asked }
    ensures frame { GoesOn (N.state notary.old) (N.state notary.new) }
    ensures cause { HasCause NotaryFault (N.state notary.old).faults (N.state notary.new).faults result }
    ensures counted { IsCounted notary_in_doubt (N.state notary.old) (N.state notary.new) result }
{
    let mut out = Vec::new(alloc);
    put_report(alloc, &mut out, notary, request, analysis)?;
    Ok(Blob::from_vec(out))
}
