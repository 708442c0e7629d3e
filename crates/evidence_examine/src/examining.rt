//! Examining an evidence file.

ghost use Rattle.std.specs.Prelude.{◌≡◌, ◌≤◌, ◌+◌, ◌==◌, false, None, Ok, IfErr, IfSome, IsErrOf};
ghost use Rattle.std.specs.List.{sum_by};
ghost use Rattle.outside_words.specs.Faults.{HasCause};
ghost use Rattle.outside_words.specs.Told.{WhereTold};
ghost use Rattle.notary_link.specs.Notary.{Unchanged, GoesOn, IsCounted};
ghost use Rattle.step_count.specs.Blank.{IsBlankOf};
ghost use Rattle.digest_model.specs.Layout.{policy_of};
ghost use Rattle.evidence_file.specs.Evidence.{FitsEvidence};
ghost use Rattle.evidence_file.specs.Reading.{evidence_of};
ghost use Rattle.evidence_examine.specs.declared.examined.Examined.TheVariants.{OtherHeader};
ghost use Rattle.evidence_examine.specs.declared.fail.ExamineFail.TheVariants.{NotEvidence, NotaryFault};
ghost use Rattle.evidence_examine.specs.Fails.{in_doubt};
ghost use Rattle.evidence_examine.specs.Places.{places_of, layout_of};
ghost use Rattle.evidence_examine.specs.Examining.{lists_examined, file_examined, examined_of, IsToldOf, is_of, IsToldUnasked, IsOfFile, IsOfExamining, list_count, questions};

use crate::examined::Examined;
use crate::fail::ExamineFail;
use crate::judging::ask_entries;
use crate::lines::write_lines;
use crate::places::{eras_of, has_filed_places};
use evidence_file::{Evidence, read_evidence};
use notary_link::Notary;
use policy_eras::Eras;
use std::alloc::Global;
use std::marker::Brand;
use step_count::{Blank, Ledger, Steps};

/// Tells which lists of an evidence file are as notarized under the id, by the notary's answers alone.
pub fn examine<N: Notary>(
    alloc: Global,
    bytes: &[u8],
    notary: &mut N,
    id: u64,
) -> Result<Examined, ExamineFail>
    ensures told { WhereTold (N.state notary.old).lists (N.state notary.new).lists (λ before after.
        IsToldOf (examined_of id (before.batches id) (evidence_of bytes.now)) result) }
    ensures not_evidence { IsErrOf result NotEvidence → evidence_of bytes.now ≡ None }
    ensures elsewhere { is_of id (evidence_of bytes.now) ≡ false → IsToldUnasked (evidence_of bytes.now) result }
    ensures unasked { is_of id (evidence_of bytes.now) ≡ false → N.state notary.new ≡ N.state notary.old }
    ensures none_other { IfErr result (IsOfExamining (evidence_of bytes.now)) }
    ensures same { Unchanged (N.state notary.old) (N.state notary.new) }
    ensures asked { IfSome (evidence_of bytes.now) (λ e. (N.state notary.new).asked ≤ (N.state notary.old).asked + questions e) }
    ensures frame { GoesOn (N.state notary.old) (N.state notary.new) }
    ensures cause { HasCause NotaryFault (N.state notary.old).faults (N.state notary.new).faults result }
    ensures counted { IsCounted in_doubt (N.state notary.old) (N.state notary.new) result }
{
    match read_evidence(alloc, bytes)? {
        Some(evidence) => examine_file(alloc, &evidence, notary, id),
        None => Err(ExamineFail::NotEvidence),
    }
}

/// The same of a file. One of another id is told without a question.
fn examine_file<N: Notary>(
    alloc: Global,
    evidence: &Evidence,
    notary: &mut N,
    id: u64,
) -> Result<Examined, ExamineFail>
    requires fits { FitsEvidence evidence.now }
    ensures told { WhereTold (N.state notary.old).lists (N.state notary.new).lists (λ before after.
        IsToldOf (file_examined id (before.batches id) evidence.now) result) }
    ensures elsewhere { (evidence.now.header.id == id) ≡ false → result ≡ Ok OtherHeader }
    ensures unasked { (evidence.now.header.id == id) ≡ false → N.state notary.new ≡ N.state notary.old }
    ensures none_other { IfErr result (IsOfFile evidence.now) }
    ensures same { Unchanged (N.state notary.old) (N.state notary.new) }
    ensures asked { (N.state notary.new).asked ≤ (N.state notary.old).asked + questions evidence.now }
    ensures frame { GoesOn (N.state notary.old) (N.state notary.new) }
    ensures cause { HasCause NotaryFault (N.state notary.old).faults (N.state notary.new).faults result }
    ensures counted { IsCounted in_doubt (N.state notary.old) (N.state notary.new) result }
{
    if evidence.header.id == id {
        examine_places(alloc, evidence, notary)
    } else {
        Ok(Examined::OtherHeader)
    }
}

/// The same of a file of the id: the header and the eras of the sealed tiles are asked for first.
fn examine_places<N: Notary>(
    alloc: Global,
    evidence: &Evidence,
    notary: &mut N,
) -> Result<Examined, ExamineFail>
    requires fits { FitsEvidence evidence.now }
    ensures told { WhereTold (N.state notary.old).lists (N.state notary.new).lists (λ before after.
        IsToldOf (file_examined evidence.now.header.id (before.batches evidence.now.header.id) evidence.now) result) }
    ensures none_other { IfErr result (IsOfFile evidence.now) }
    ensures same { Unchanged (N.state notary.old) (N.state notary.new) }
    ensures asked { (N.state notary.new).asked ≤ (N.state notary.old).asked + questions evidence.now }
    ensures frame { GoesOn (N.state notary.old) (N.state notary.new) }
    ensures cause { HasCause NotaryFault (N.state notary.old).faults (N.state notary.new).faults result }
    ensures counted { IsCounted in_doubt (N.state notary.old) (N.state notary.new) result }
{
    let eras = eras_of(alloc, evidence)?;
    if has_filed_places(notary, evidence.header.id, evidence, &eras)? {
        examine_lists::<N, Brand>(alloc, evidence, &eras, notary, Blank::new(1))
    } else {
        Ok(Examined::OtherHeader)
    }
}

/// The lines of a file.
fn examine_lists<N: Notary, L: Ledger>(
    alloc: Global,
    evidence: &Evidence,
    eras: &Eras,
    notary: &mut N,
    blank: Blank,
) -> Result<Examined, ExamineFail>
    requires blank { IsBlankOf L.name L.parts blank }
    requires fits { FitsEvidence evidence.now }
    requires eras { eras.now ≡ policy_of (places_of evidence.now) }
    ensures told { WhereTold (N.state notary.old).lists (N.state notary.new).lists (λ before after.
        IsToldOf (lists_examined (before.batches evidence.now.header.id) (layout_of evidence.now) evidence.now.entries) result) }
    ensures none_other { IfErr result (IsOfFile evidence.now) }
    ensures same { Unchanged (N.state notary.old) (N.state notary.new) }
    ensures asked { (N.state notary.new).asked ≤ (N.state notary.old).asked + sum_by list_count evidence.now.entries }
    ensures frame { GoesOn (N.state notary.old) (N.state notary.new) }
    ensures cause { HasCause NotaryFault (N.state notary.old).faults (N.state notary.new).faults result }
    ensures counted { IsCounted in_doubt (N.state notary.old) (N.state notary.new) result }
{
    let mut steps = Steps::<L>::new(blank);
    let judged = ask_entries(
        alloc,
        notary,
        evidence.header.id,
        evidence,
        eras,
        &mut steps,
    )?;
    let text = write_lines(alloc, &judged)?;
    Ok(Examined::Lines { text })
}
