//! What a notary's answers show of what is stored.

ghost use Rattle.std.specs.Prelude.{◌≡◌, ◌≤◌, ◌+◌, ℕ, true, None, Some, Ok, IfOk, IfErr, IfSome};
ghost use Rattle.outside_words.specs.Faults.{HasCause};
ghost use Rattle.outside_words.specs.Shown.{ShowsFaults};
ghost use Rattle.outside_words.specs.Told.{WhereTold};
ghost use Rattle.disk_words.specs.Disk as disks;
ghost use Rattle.notary_link.specs.Notary.{Unchanged, GoesOn, IsCounted};
ghost use Rattle.step_count.specs.Blank.{IsBlankOf};
ghost use Rattle.history_model.specs.History.{history};
ghost use Rattle.history_model.specs.Stored.{stored};
ghost use Rattle.history_model.specs.StoredHistory.{IsHistory};
ghost use Rattle.digest_model.specs.Layout.{layout, policy_of, first_granule, max_granules};
ghost use Rattle.segment_file.specs.Reading.{as_stored};
ghost use Rattle.audit_model.specs.Altered.{history_in, history_with};
ghost use Rattle.validator.specs.Verdicts.{sealed_of, sealed_in, sealed_on};
ghost use Rattle.forensic_report.specs.declared.algorithm.Algorithm.TheVariants.{Mono};
ghost use Rattle.forensic_report.specs.declared.fail.AnalyseFail.TheVariants.{DiskFault, NotaryFault};
ghost use Rattle.forensic_report.specs.declared.found.Analysis.TheVariants as analyses;
ghost use Rattle.forensic_report.specs.Fails.{disk_in_doubt, notary_in_doubt};
ghost use Rattle.forensic_report.specs.Analysis.{asked_first, questions};
ghost use Rattle.forensic_report.specs.Held.{HoldsFiled};
ghost use Rattle.forensic_report.specs.Finding.{has_era, IsFoundBy, IsFoundIn, IsFoundOf, IsAnalysis, IsOfAnalysis};
ghost use Rattle.forensic_report.specs.Values.{analysis_of, found_as, FindsNone, OrGivesUp, FitsAnalysis, IsOfFinding};

use crate::algorithm::{Algorithm, Asked};
use crate::fail::AnalyseFail;
use crate::found::{Analysis, Examined};
use crate::range::{has_chains, has_era};
use crate::searching::search;
use a3d_forensics::tiles_of;
use disk_model::Disk;
use history_model::Spelled;
use notary_link::{Answer, Name, Notary};
use policy_eras::Eras;
use segment_file::{StoredAny, read_any};
use std::alloc::Global;
use std::marker::Brand;
use step_count::{Blank, Ledger, Steps};
use tuple_bytes::Header;
use validator::ask_header;

/// What the notary's answers show of what is stored under the id. Where nothing was filed, nothing is read.
pub(crate) fn find<D: Disk, N: Notary>(
    alloc: Global,
    disk: &mut D,
    notary: &mut N,
    id: u64,
    algorithm: Algorithm,
    era: Option<u32>,
) -> Result<Analysis, AnalyseFail>
    requires mono { algorithm ≡ Mono → era ≡ None }
    ensures value { IfSome (D.state disk.old).reads (λ bytes. WhereTold (N.state notary.old).lists (N.state notary.new).lists (λ before after.
        OrGivesUp (IsAnalysis algorithm era id (before.batches id) (stored bytes)) (found_as result))) }
    ensures nowhere { IfSome (D.state disk.old).reads (λ bytes. history_with id (stored bytes) ≡ None → FindsNone result) }
    ensures held { IfOk result (λ a. HoldsFiled id (D.state disk.old) (N.state notary.old) (N.state notary.new)) }
    ensures fits { IfOk result FitsAnalysis }
    ensures none_other { IfErr result (IsOfAnalysis algorithm era) }
    ensures same_disk { disks.Unchanged (D.state disk.old) (D.state disk.new) }
    ensures disk_frame { disks.GoesOn (D.state disk.old) (D.state disk.new) }
    ensures disk_cause { HasCause DiskFault (D.state disk.old).faults (D.state disk.new).faults result }
    ensures disk_counted { ShowsFaults disk_in_doubt (D.state disk.old).faults (D.state disk.new).faults result }
    ensures same { Unchanged (N.state notary.old) (N.state notary.new) }
    ensures asked { IfOk result (λ a. (N.state notary.new).asked ≤ (N.state notary.old).asked + questions (sealed_on id (D.state disk.old).reads) (analysis_of a)) }
    ensures frame { GoesOn (N.state notary.old) (N.state notary.new) }
    ensures cause { HasCause NotaryFault (N.state notary.old).faults (N.state notary.new).faults result }
    ensures counted { IsCounted notary_in_doubt (N.state notary.old) (N.state notary.new) result }
{
    match notary.count(id)? {
        0 => Ok(Analysis::Unsealed { era }),
        count => {
            let tiles = count - 1;
            let asked = Asked {
                algorithm,
                era,
                tiles,
            };
            find_stored(alloc, disk, notary, id, asked)
        }
    }
}

/// The same where so many tiles are sealed: the store is read once.
fn find_stored<D: Disk, N: Notary>(
    alloc: Global,
    disk: &mut D,
    notary: &mut N,
    id: u64,
    asked: Asked,
) -> Result<Analysis, AnalyseFail>
    requires mono { asked.algorithm ≡ Mono → asked.era ≡ None }
    ensures value { IfSome (D.state disk.old).reads (λ bytes. WhereTold (N.state notary.old).lists (N.state notary.new).lists (λ before after.
        OrGivesUp (IsFoundOf asked.algorithm asked.era (before.batches id) asked.tiles (history_with id (stored bytes))) (found_as result))) }
    ensures nowhere { IfSome (D.state disk.old).reads (λ bytes. history_with id (stored bytes) ≡ None → FindsNone result) }
    ensures held { IfOk result (λ a. IfSome (D.state disk.old).reads (λ bytes. IfSome (history_in (stored bytes)) IsHistory)) }
    ensures fits { IfOk result FitsAnalysis }
    ensures none_other { IfErr result (IsOfAnalysis asked.algorithm asked.era) }
    ensures same_disk { disks.Unchanged (D.state disk.old) (D.state disk.new) }
    ensures disk_frame { disks.GoesOn (D.state disk.old) (D.state disk.new) }
    ensures disk_cause { HasCause DiskFault (D.state disk.old).faults (D.state disk.new).faults result }
    ensures disk_counted { ShowsFaults disk_in_doubt (D.state disk.old).faults (D.state disk.new).faults result }
    ensures same { Unchanged (N.state notary.old) (N.state notary.new) }
    ensures asked { IfOk result (λ a. (N.state notary.new).asked ≤ (N.state notary.old).asked + questions (sealed_on id (D.state disk.old).reads) (analysis_of a)) }
    ensures frame { GoesOn (N.state notary.old) (N.state notary.new) }
    ensures cause { HasCause NotaryFault (N.state notary.old).faults (N.state notary.new).faults result }
    ensures counted { IsCounted notary_in_doubt (N.state notary.old) (N.state notary.new) result }
{
    let stored = read_any(alloc, disk)?;
    find_in(alloc, &stored, notary, id, asked)
}

/// The same in what is stored. Another header, or none, is altered without a question.
fn find_in<N: Notary>(
    alloc: Global,
    stored: &StoredAny,
    notary: &mut N,
    id: u64,
    asked: Asked,
) -> Result<Analysis, AnalyseFail>
    requires fits { IfSome stored.now.header (λ header. IsHistory (history header stored.now.items)) }
    requires mono { asked.algorithm ≡ Mono → asked.era ≡ None }
    ensures value { WhereTold (N.state notary.old).lists (N.state notary.new).lists (λ before after.
        OrGivesUp (IsFoundOf asked.algorithm asked.era (before.batches id) asked.tiles (history_with id (as_stored stored.now))) (found_as result)) }
    ensures nowhere { history_with id (as_stored stored.now) ≡ None → result ≡ Ok (analyses.HeaderAltered asked.tiles) }
    ensures fits { IfOk result FitsAnalysis }
    ensures none_other { IfErr result (IsOfFinding asked.algorithm asked.era) }
    ensures same { Unchanged (N.state notary.old) (N.state notary.new) }
    ensures asked { IfOk result (λ a.
        (N.state notary.new).asked ≤ (N.state notary.old).asked + questions (sealed_in (history_with id (as_stored stored.now))) (analysis_of a)) }
    ensures frame { GoesOn (N.state notary.old) (N.state notary.new) }
    ensures cause { HasCause NotaryFault (N.state notary.old).faults (N.state notary.new).faults result }
    ensures counted { IsCounted notary_in_doubt (N.state notary.old) (N.state notary.new) result }
{
    let tiles = asked.tiles;
    match &stored.header {
        Some(header) => {
            if header.id == id {
                find_under(alloc, header, &stored.items, notary, asked)
            } else {
                Ok(Analysis::HeaderAltered { tiles })
            }
        }
        None => Ok(Analysis::HeaderAltered { tiles }),
    }
}

/// The same under a header of that id: it and the eras are asked for first.
fn find_under<N: Notary>(
    alloc: Global,
    header: &Header,
    items: &Spelled,
    notary: &mut N,
    asked: Asked,
) -> Result<Analysis, AnalyseFail>
    requires history { IsHistory (history header.now items.now) }
    requires mono { asked.algorithm ≡ Mono → asked.era ≡ None }
    ensures value { WhereTold (N.state notary.old).lists (N.state notary.new).lists (λ before after.
        OrGivesUp (IsFoundOf asked.algorithm asked.era (before.batches header.now.id) asked.tiles (Some (history header.now items.now))) (found_as result)) }
    ensures fits { IfOk result FitsAnalysis }
    ensures none_other { IfErr result (IsOfFinding asked.algorithm asked.era) }
    ensures same { Unchanged (N.state notary.old) (N.state notary.new) }
    ensures asked { IfOk result (λ a.
        (N.state notary.new).asked ≤ (N.state notary.old).asked + questions (sealed_of (history header.now items.now)) (analysis_of a)) }
    ensures frame { GoesOn (N.state notary.old) (N.state notary.new) }
    ensures cause { HasCause NotaryFault (N.state notary.old).faults (N.state notary.new).faults result }
    ensures counted { IsCounted notary_in_doubt (N.state notary.old) (N.state notary.new) result }
{
    let tiles = asked.tiles;
    let eras = Eras::of(alloc, header, items)?;
    match ask_header(notary, header.id, header, &eras, tiles)? {
        Answer::Same => find_tiles(alloc, header, eras, items, notary, asked),
        Answer::Differs => Ok(Analysis::HeaderAltered { tiles }),
        Answer::Absent => {
            let name = Name::Header;
            Err(AnalyseFail::SealMissing { name })
        }
    }
}

/// The same under the header and the eras that were filed. Tiles behind the last granule were never filed.
fn find_tiles<N: Notary>(
    alloc: Global,
    header: &Header,
    eras: Eras,
    items: &Spelled,
    notary: &mut N,
    asked: Asked,
) -> Result<Analysis, AnalyseFail>
    requires history { IsHistory (history header.now items.now) }
    requires eras { eras ≡ policy_of (history header.now items.now) }
    requires mono { asked.algorithm ≡ Mono → asked.era ≡ None }
    ensures value { WhereTold (N.state notary.old).lists (N.state notary.new).lists (λ before after.
        OrGivesUp (IsFoundIn (has_era asked.era (history header.now items.now)) asked.algorithm asked.era (before.batches header.now.id) asked.tiles (history header.now items.now)) (found_as result)) }
    ensures fits { IfOk result FitsAnalysis }
    ensures none_other { IfErr result (IsOfFinding asked.algorithm asked.era) }
    ensures same { Unchanged (N.state notary.old) (N.state notary.new) }
    ensures asked { (eras : ℕ → ℕ) → IfOk result (λ a.
        (N.state notary.new).asked + asked_first (layout (history header.now items.now)) asked.tiles ≤ (N.state notary.old).asked + questions eras (analysis_of a)) }
    ensures frame { GoesOn (N.state notary.old) (N.state notary.new) }
    ensures cause { HasCause NotaryFault (N.state notary.old).faults (N.state notary.new).faults result }
    ensures counted { IsCounted notary_in_doubt (N.state notary.old) (N.state notary.new) result }
{
    if !has_era(&eras, asked.era) {
        return Err(AnalyseFail::NoEra);
    }
    if !has_chains(asked, &eras) {
        return Err(AnalyseFail::NotSealedSo);
    }
    let past = eras.first_past();
    if asked.tiles > past {
        let name = Name::Cum { tile: past };
        return Err(AnalyseFail::SealMissing { name });
    }
    find_examined::<N, Brand>(alloc, header, eras, items, notary, asked, Blank::new(1))
}

/// The same by the algorithm.
fn find_examined<N: Notary, L: Ledger>(
    alloc: Global,
    header: &Header,
    eras: Eras,
    items: &Spelled,
    notary: &mut N,
    asked: Asked,
    blank: Blank,
) -> Result<Analysis, AnalyseFail>
    requires blank { IsBlankOf L.name L.parts blank }
    requires history { IsHistory (history header.now items.now) }
    requires eras { eras ≡ policy_of (history header.now items.now) }
    requires era { has_era asked.era (history header.now items.now) ≡ true }
    requires within { first_granule (layout (history header.now items.now)) asked.tiles ≤ max_granules }
    requires mono { asked.algorithm ≡ Mono → asked.era ≡ None }
    ensures value { WhereTold (N.state notary.old).lists (N.state notary.new).lists (λ before after.
        OrGivesUp (IsFoundBy asked.algorithm asked.era (before.batches header.now.id) asked.tiles (history header.now items.now)) (found_as result)) }
    ensures fits { IfOk result FitsAnalysis }
    ensures none_other { IfErr result (IsOfFinding asked.algorithm asked.era) }
    ensures same { Unchanged (N.state notary.old) (N.state notary.new) }
    ensures asked { (eras : ℕ → ℕ) → IfOk result (λ a.
        (N.state notary.new).asked + asked_first (layout (history header.now items.now)) asked.tiles ≤ (N.state notary.old).asked + questions eras (analysis_of a)) }
    ensures frame { GoesOn (N.state notary.old) (N.state notary.new) }
    ensures cause { HasCause NotaryFault (N.state notary.old).faults (N.state notary.new).faults result }
    ensures counted { IsCounted notary_in_doubt (N.state notary.old) (N.state notary.new) result }
{
    let mut steps = Steps::<L>::new(blank);
    let findings = search(alloc, header, &eras, items, notary, asked, &mut steps)?;
    let Asked { era, tiles, .. } = asked;
    let range = tiles_of(&eras, era, tiles);
    let examined = Examined {
        eras,
        tiles,
        era,
        count: range.end - range.start,
        findings,
    };
    Ok(Analysis::Found { examined })
}
