//! The last piece: the verdict over all that is stored.

ghost use Rattle.std.specs.Prelude.{◌≡◌, ◌≤◌, ◌+◌, None, Some, IfSome, IfOk, IfErr, length};
ghost use Rattle.outside_words.specs.Faults.{HasCause};
ghost use Rattle.outside_words.specs.Shown.{ShowsFaults};
ghost use Rattle.outside_words.specs.Told.{WhereTold};
ghost use Rattle.disk_words.specs.Disk as disks;
ghost use Rattle.notary_link.specs.Notary as notaries;
ghost use Rattle.tuple_bytes.specs.Spelling.{FitsHeader};
ghost use Rattle.history_model.specs.declared.stored.Stored.{Stored};
ghost use Rattle.history_model.specs.History.{History, txns};
ghost use Rattle.history_model.specs.Stored.{stored};
ghost use Rattle.digest_model.specs.Layout.{max_later};
ghost use Rattle.audit_model.specs.Altered.{history_with};
ghost use Rattle.chain_state.specs.Chained.{IsChainOf, history_of};
ghost use Rattle.validator.specs.declared.fail.AuditFail.TheVariants.{DiskFault, NotaryFault};
ghost use Rattle.validator.specs.Fails.{disk_in_doubt, notary_in_doubt};
ghost use Rattle.validator.specs.Verdicts.{Validates, MakesMark, IsOfValidation, ValidatesNone, sealed_of, sealed_in, questions};
ghost use Rattle.validator.specs.Steps.{KeepsBatches, IsOfJudging};
ghost use Rattle.audit_steps.specs.Auditing.{GranulesRise};
ghost use Rattle.audit_steps.specs.Steps.{FitsTogether, IsAtEnd};

use crate::auditing::Auditing;
use crate::linking::link_ends;
use chain_state::Chains;
use disk_model::Disk;
use notary_link::Notary;
use std::alloc::Global;
use step_count::{Ledger, Steps};
use tuple_bytes::Header;
use validator::{AuditFail, Verdict, judge_file, judge_links, judge_nowhere};

/// What a validation of the bytes answers, by an audit that has read all.
pub(crate) fn conclude<D: Disk, N: Notary, L: Ledger>(
    alloc: Global,
    disk: &mut D,
    notary: &mut N,
    id: u64,
    audit: Option<Auditing>,
    now: u64,
    steps: &mut Steps<L>,
) -> Result<Verdict, AuditFail>
    requires fits { IfSome audit FitsTogether }
    ensures told { IfSome (D.state disk.old).reads (λ bytes. IsAtEnd id bytes audit
        → WhereTold (N.state notary.old).lists (N.state notary.new).lists
        (Validates id now (N.state notary.old).limits (stored bytes) result
        (N.state notary.old).trace (N.state notary.new).trace)) }
    ensures nowhere { audit ≡ None → ValidatesNone result }
    ensures none_other { IfErr result IsOfValidation }
    ensures batches { WhereTold (N.state notary.old).lists (N.state notary.new).lists KeepsBatches }
    ensures trace { WhereTold (N.state notary.old).trace (N.state notary.new).trace (MakesMark id now result) }
    ensures same { disks.Unchanged (D.state disk.old) (D.state disk.new) }
    ensures asked { IfOk result (λ verdict. (N.state notary.new).asked ≤ (N.state notary.old).asked + questions (λ n. max_later) verdict) }
    ensures few { IfSome (D.state disk.old).reads (λ bytes. IsAtEnd id bytes audit
        → IfOk result (λ verdict. (N.state notary.new).asked ≤ (N.state notary.old).asked + questions (sealed_in (history_with id (stored bytes))) verdict)) }
    ensures steps { IfSome (D.state disk.old).reads (λ bytes. IsAtEnd id bytes audit → GranulesRise bytes → steps.new ≡ steps.old) }
    ensures most { IfSome (D.state disk.old).reads (λ bytes. steps.new ≤ steps.old + length (txns (stored bytes).items)) }
    ensures disk_frame { disks.GoesOn (D.state disk.old) (D.state disk.new) }
    ensures notary_frame { notaries.GoesOn (N.state notary.old) (N.state notary.new) }
    ensures disk_cause { HasCause DiskFault (D.state disk.old).faults (D.state disk.new).faults result }
    ensures disk_counted { ShowsFaults disk_in_doubt (D.state disk.old).faults (D.state disk.new).faults result }
    ensures notary_cause { HasCause NotaryFault (N.state notary.old).faults (N.state notary.new).faults result }
    ensures notary_counted { notaries.IsCounted notary_in_doubt (N.state notary.old) (N.state notary.new) result }
{
    match notary.count(id)? {
        0 => Ok(Verdict::Unsealed),
        count => {
            let tiles = count - 1;
            conclude_sealed(alloc, disk, notary, id, audit, tiles, now, steps)
        }
    }
}

/// The same where so many tiles are sealed. Where the chains were taken along, nothing is hashed anew;
/// else the file is read once more.
fn conclude_sealed<D: Disk, N: Notary, L: Ledger>(
    alloc: Global,
    disk: &mut D,
    notary: &mut N,
    id: u64,
    audit: Option<Auditing>,
    tiles: u32,
    now: u64,
    steps: &mut Steps<L>,
) -> Result<Verdict, AuditFail>
    requires fits { IfSome audit FitsTogether }
    ensures told { IfSome (D.state disk.old).reads (λ bytes. IsAtEnd id bytes audit
        → WhereTold (N.state notary.old).lists (N.state notary.new).lists (λ lists later. length (lists.batches id) ≡ tiles + 1
        → Validates id now (N.state notary.old).limits (stored bytes) result
        (N.state notary.old).trace (N.state notary.new).trace lists later)) }
    ensures nowhere { audit ≡ None → ValidatesNone result }
    ensures none_other { IfErr result IsOfValidation }
    ensures batches { WhereTold (N.state notary.old).lists (N.state notary.new).lists KeepsBatches }
    ensures trace { WhereTold (N.state notary.old).trace (N.state notary.new).trace (MakesMark id now result) }
    ensures same { disks.Unchanged (D.state disk.old) (D.state disk.new) }
    ensures asked { IfOk result (λ verdict. (N.state notary.new).asked ≤ (N.state notary.old).asked + questions (λ n. max_later) verdict) }
    ensures few { IfSome (D.state disk.old).reads (λ bytes. IsAtEnd id bytes audit
        → IfOk result (λ verdict. (N.state notary.new).asked ≤ (N.state notary.old).asked + questions (sealed_in (history_with id (stored bytes))) verdict)) }
    ensures steps { IfSome (D.state disk.old).reads (λ bytes. IsAtEnd id bytes audit → GranulesRise bytes → steps.new ≡ steps.old) }
    ensures most { IfSome (D.state disk.old).reads (λ bytes. steps.new ≤ steps.old + length (txns (stored bytes).items)) }
    ensures disk_frame { disks.GoesOn (D.state disk.old) (D.state disk.new) }
    ensures notary_frame { notaries.GoesOn (N.state notary.old) (N.state notary.new) }
    ensures disk_cause { HasCause DiskFault (D.state disk.old).faults (D.state disk.new).faults result }
    ensures disk_counted { ShowsFaults disk_in_doubt (D.state disk.old).faults (D.state disk.new).faults result }
    ensures notary_cause { HasCause NotaryFault (N.state notary.old).faults (N.state notary.new).faults result }
    ensures notary_counted { notaries.IsCounted notary_in_doubt (N.state notary.old) (N.state notary.new) result }
{
    match audit {
        Some(auditing) => {
            let header = auditing.header;
            match auditing.chains {
                Some(chains) => judge_chains(alloc, notary, id, &header, chains, tiles, now),
                None => judge_file(alloc, disk, notary, id, tiles, now, steps),
            }
        }
        None => judge_nowhere(notary, id, tiles, now),
    }
}

/// By the chains of all items.
fn judge_chains<N: Notary>(
    alloc: Global,
    notary: &mut N,
    id: u64,
    header: &Header,
    mut chains: Chains,
    tiles: u32,
    now: u64,
) -> Result<Verdict, AuditFail>
    requires fits { FitsHeader header.now }
    requires under { chains.header ≡ header.now }
    ensures told { WhereTold (N.state notary.old).lists (N.state notary.new).lists (λ lists later.
        (s : Stored) (h : History) → history_with id s ≡ Some h → IsChainOf chains h → length (lists.batches id) ≡ tiles + 1
        → Validates id now (N.state notary.old).limits s result
        (N.state notary.old).trace (N.state notary.new).trace lists later) }
    ensures none_other { IfErr result IsOfJudging }
    ensures batches { WhereTold (N.state notary.old).lists (N.state notary.new).lists KeepsBatches }
    ensures trace { WhereTold (N.state notary.old).trace (N.state notary.new).trace (MakesMark id now result) }
    ensures asked { IfOk result (λ verdict. (N.state notary.new).asked ≤ (N.state notary.old).asked + questions (sealed_of (history_of chains)) verdict) }
    ensures frame { notaries.GoesOn (N.state notary.old) (N.state notary.new) }
    ensures cause { HasCause NotaryFault (N.state notary.old).faults (N.state notary.new).faults result }
    ensures counted { notaries.IsCounted notary_in_doubt (N.state notary.old) (N.state notary.new) result }
{
    let links = link_ends(alloc, &mut chains, tiles)?;
    judge_links(notary, id, header, chains.eras(), &links, tiles, now)
}
