//! Asking for all lists of a file, entry by entry.

ghost use Rattle.std.specs.Prelude.{◌≡◌, ◌≤◌, ◌+◌, [], ◌∷◌, ◌++◌, IfOk, IfErr, OnOk};
ghost use Rattle.std.specs.List.{sum_by};
ghost use Rattle.outside_words.specs.Faults.{HasCause};
ghost use Rattle.outside_words.specs.Told.{WhereTold};
ghost use Rattle.digest_model.specs.Layout.{policy_of};
ghost use Rattle.notary_link.specs.Notary.{Unchanged, GoesOn, IsCounted};
ghost use Rattle.evidence_file.specs.Evidence.{FitsEvidence};
ghost use Rattle.evidence_examine.specs.declared.fail.ExamineFail.TheVariants.{NotaryFault};
ghost use Rattle.evidence_examine.specs.Fails.{in_doubt};
ghost use Rattle.evidence_examine.specs.Places.{places_of, layout_of};
ghost use Rattle.evidence_examine.specs.Examining.{first_missing, IsOfFile, list_count};
ghost use Rattle.evidence_examine.specs.Judging.{txn_count};
ghost use Rattle.evidence_examine.specs.Asking.{AreJudged, IsFirstMissing};

use crate::asking::ask_entry;
use crate::fail::ExamineFail;
use crate::judged::Judged;
use crate::places::leaf_name;
use evidence_file::Evidence;
use notary_link::Notary;
use policy_eras::Eras;
use std::alloc::{AllocError, Global};
use step_count::{Ledger, Steps};

fn add(all: &mut Vec<Judged>, judged: Judged) -> Result<(), AllocError>
    ensures ok { OnOk result (all.new.items ≡ all.old.items ++ judged ∷ []) }
{
    all.push(judged)?;
    Ok(())
}

/// What is answered for each entry, unless a leaf was never filed. Each list is hashed once.
pub(crate) fn ask_entries<N: Notary, L: Ledger>(
    alloc: Global,
    notary: &mut N,
    id: u64,
    evidence: &Evidence,
    eras: &Eras,
    steps: &mut Steps<L>,
) -> Result<Vec<Judged>, ExamineFail>
    requires fits { FitsEvidence evidence.now }
    requires eras { eras.now ≡ policy_of (places_of evidence.now) }
    ensures told { WhereTold (N.state notary.old).lists (N.state notary.new).lists (λ before after.
        IfOk result (λ js. AreJudged (before.batches id) (layout_of evidence.now) evidence.now.entries js.items)
        × IfErr result (IsFirstMissing (first_missing (before.batches id) (layout_of evidence.now) evidence.now.entries))) }
    ensures only { IfErr result (IsOfFile evidence.now) }
    ensures steps { steps.new ≤ steps.old + sum_by txn_count evidence.now.entries }
    ensures same { Unchanged (N.state notary.old) (N.state notary.new) }
    ensures asked { (N.state notary.new).asked ≤ (N.state notary.old).asked + sum_by list_count evidence.now.entries }
    ensures frame { GoesOn (N.state notary.old) (N.state notary.new) }
    ensures cause { HasCause NotaryFault (N.state notary.old).faults (N.state notary.new).faults result }
    ensures counted { IsCounted in_doubt (N.state notary.old) (N.state notary.new) result }
{
    let mut all = Vec::new(alloc);
    for entry in evidence.entries.as_slice() {
        let name = leaf_name(eras, entry.granule);
        let judged = ask_entry(notary, id, name, entry, steps)?;
        add(&mut all, judged)?;
    }
    Ok(all)
}
