//! Asking for the lists of an entry, under the name of its granule's leaf.

ghost use Rattle.std.specs.Prelude.{◌≡◌, ◌≤◌, ◌+◌, IfErr, length};
ghost use Rattle.std.specs.List.{All};
ghost use Rattle.outside_words.specs.Faults.{HasCause};
ghost use Rattle.outside_words.specs.Told.{WhereTold};
ghost use Rattle.digest_model.specs.Plain.{IsShort};
ghost use Rattle.notary_link.specs.Notary.{Unchanged, GoesOn, IsCounted};
ghost use Rattle.evidence_file.specs.Writing.{SecondHasLengths, EntryHasLengths};
ghost use Rattle.evidence_examine.specs.declared.fail.ExamineFail.TheVariants.{NotaryFault};
ghost use Rattle.evidence_examine.specs.Fails.{in_doubt};
ghost use Rattle.evidence_examine.specs.Examining.{second_count, list_count};
ghost use Rattle.evidence_examine.specs.Judging.{txns_in, txn_count};
ghost use Rattle.evidence_examine.specs.Asking.{IsOfAsking, IsListed, IsSecond, IsJudged};

use crate::fail::ExamineFail;
use crate::judged::{Judged, Listed};
use evidence_file::Entry;
use notary_link::{Answer, Name, Notary};
use step_count::{Ledger, Steps};
use tile_chains::granule_digest;
use tuple_bytes::Payloads;

/// A list of a granule: it is hashed once, and its digest is asked for.
fn ask_list<N: Notary, L: Ledger>(
    notary: &mut N,
    id: u64,
    name: Name,
    granule: u32,
    list: &Payloads,
    steps: &mut Steps<L>,
) -> Result<Listed, ExamineFail>
    requires short { All IsShort list.now }
    ensures told { WhereTold (N.state notary.old).lists (N.state notary.new).lists (λ before after.
        IsListed (before.batches id) name granule list.now result) }
    ensures only { IfErr result (IsOfAsking name) }
    ensures steps { steps.new ≡ steps.old + length list.now }
    ensures same { Unchanged (N.state notary.old) (N.state notary.new) }
    ensures asked { (N.state notary.new).asked ≤ (N.state notary.old).asked + 1 }
    ensures frame { GoesOn (N.state notary.old) (N.state notary.new) }
    ensures cause { HasCause NotaryFault (N.state notary.old).faults (N.state notary.new).faults result }
    ensures counted { IsCounted in_doubt (N.state notary.old) (N.state notary.new) result }
{
    let digest = granule_digest(granule, list, steps);
    let count = list.as_slice().len();
    match notary.ask(id, name, &digest)? {
        Answer::Absent => Err(ExamineFail::SealMissing { name }),
        answer => Ok(Listed { count, answer }),
    }
}

/// A second list, where there is one.
fn ask_second<N: Notary, L: Ledger>(
    notary: &mut N,
    id: u64,
    name: Name,
    granule: u32,
    second: &Option<Payloads>,
    steps: &mut Steps<L>,
) -> Result<Option<Listed>, ExamineFail>
    requires short { SecondHasLengths second.now }
    ensures told { WhereTold (N.state notary.old).lists (N.state notary.new).lists (λ before after.
        IsSecond (before.batches id) name granule second.now result) }
    ensures only { IfErr result (IsOfAsking name) }
    ensures steps { steps.new ≡ steps.old + txns_in second.now }
    ensures same { Unchanged (N.state notary.old) (N.state notary.new) }
    ensures asked { (N.state notary.new).asked ≤ (N.state notary.old).asked + second_count second.now }
    ensures frame { GoesOn (N.state notary.old) (N.state notary.new) }
    ensures cause { HasCause NotaryFault (N.state notary.old).faults (N.state notary.new).faults result }
    ensures counted { IsCounted in_doubt (N.state notary.old) (N.state notary.new) result }
{
    match second {
        Some(list) => {
            let listed = ask_list(notary, id, name, granule, list, steps)?;
            Ok(Some(listed))
        }
        None => Ok(None),
    }
}

/// The first list of an entry, and then the second.
pub(crate) fn ask_entry<N: Notary, L: Ledger>(
    notary: &mut N,
    id: u64,
    name: Name,
    entry: &Entry,
    steps: &mut Steps<L>,
) -> Result<Judged, ExamineFail>
    requires short { EntryHasLengths entry.now }
    ensures told { WhereTold (N.state notary.old).lists (N.state notary.new).lists (λ before after.
        IsJudged (before.batches id) name entry.now result) }
    ensures only { IfErr result (IsOfAsking name) }
    ensures steps { steps.new ≤ steps.old + txn_count entry.now }
    ensures same { Unchanged (N.state notary.old) (N.state notary.new) }
    ensures asked { (N.state notary.new).asked ≤ (N.state notary.old).asked + list_count entry.now }
    ensures frame { GoesOn (N.state notary.old) (N.state notary.new) }
    ensures cause { HasCause NotaryFault (N.state notary.old).faults (N.state notary.new).faults result }
    ensures counted { IsCounted in_doubt (N.state notary.old) (N.state notary.new) result }
{
    let granule = entry.granule;
    let shown = ask_list(notary, id, name, granule, &entry.shown, steps)?;
    let original = ask_second(notary, id, name, granule, &entry.original, steps)?;
    Ok(Judged {
        granule,
        shown,
        original,
    })
}
