//! Asking for the header and for the eras of the sealed tiles.

ghost use Rattle.std.specs.Prelude.{◌≡◌, ◌≤◌, ◌+◌, true, IfOk, IsErrOf};
ghost use Rattle.std.specs.List.{list_all, range_with_len};
ghost use Rattle.outside_words.specs.Faults.{HasCause};
ghost use Rattle.outside_words.specs.Told.{WhereTold};
ghost use Rattle.history_model.specs.History.{History};
ghost use Rattle.digest_model.specs.Layout.{policy_of};
ghost use Rattle.digest_model.specs.Digests.{era_digest};
ghost use Rattle.notary_link.specs.declared.answer.Answer.TheVariants.{Same};
ghost use Rattle.notary_link.specs.declared.fail.NotaryFail.TheVariants.{Failed, NoMemory};
ghost use Rattle.notary_link.specs.Notary.{Unchanged, GoesOn, IsAsked, IsCounted, in_doubt};
ghost use Rattle.audit_model.specs.Notary.{header_answer, is_era_same, is_no_era, with_eras};
ghost use Rattle.validator.specs.Verdicts.{sealed_by};
ghost use Rattle.validator.specs.Steps.{are_eras};

use cumulative_chain::{era_digest, header_digest};
use notary_link::{Answer, Name, Notary, NotaryFail};
use policy_eras::Eras;
use tuple_bytes::Header;

/// What is asked under the name of an era that a store has not.
const NO_DIGEST: [u8; 32] = [0; 32];

/// What the notary's answers show of a header, and of the eras of so many sealed tiles: the same, other
/// ones, or that the header's seal is missing.
///
/// Where the header is the same, each of these eras is asked for but the first, and then the next one
/// with no digest: it has to be absent. All else is another header.
pub fn ask_header<N: Notary>(
    notary: &mut N,
    id: u64,
    header: &Header,
    eras: &Eras,
    tiles: u32,
) -> Result<Answer, NotaryFail>
    ensures told { WhereTold (N.state notary.old).lists (N.state notary.new).lists (λ before after.
        (h : History) → h.header ≡ header.now → eras.now ≡ policy_of h
        → IfOk result (λ a. a ≡ header_answer (before.batches id) h tiles)) }
    ensures only { IsAsked result }
    ensures same { Unchanged (N.state notary.old) (N.state notary.new) }
    ensures asked { (N.state notary.new).asked ≤ (N.state notary.old).asked + (sealed_by eras.now tiles + 2) }
    ensures few { sealed_by eras.now tiles ≤ 255 }
    ensures frame { GoesOn (N.state notary.old) (N.state notary.new) }
    ensures cause { HasCause Failed (N.state notary.old).faults (N.state notary.new).faults result }
    ensures counted { IsCounted in_doubt (N.state notary.old) (N.state notary.new) result }
    ensures memory { IsErrOf result NoMemory → N.asking_takes_memory ≡ true }
{
    let sealed = eras.sealed(tiles);
    match notary.ask(id, Name::Header, &header_digest(header))? {
        Answer::Same => ask_eras(notary, id, eras, sealed),
        Answer::Differs => Ok(Answer::Differs),
        Answer::Absent => Ok(Answer::Absent),
    }
}

/// Whether so many eras are those that were filed, and no further one was.
fn ask_eras<N: Notary>(
    notary: &mut N,
    id: u64,
    eras: &Eras,
    sealed: u32,
) -> Result<Answer, NotaryFail>
    requires few { sealed ≤ 255 }
    ensures told { WhereTold (N.state notary.old).lists (N.state notary.new).lists (λ before after.
        (h : History) → eras.now ≡ policy_of h → IfOk result (λ a. a ≡ with_eras Same (are_eras (before.batches id) h sealed))) }
    ensures only { IsAsked result }
    ensures same { Unchanged (N.state notary.old) (N.state notary.new) }
    ensures asked { (N.state notary.new).asked ≤ (N.state notary.old).asked + (sealed + 1) }
    ensures frame { GoesOn (N.state notary.old) (N.state notary.new) }
    ensures cause { HasCause Failed (N.state notary.old).faults (N.state notary.new).faults result }
    ensures counted { IsCounted in_doubt (N.state notary.old) (N.state notary.new) result }
    ensures memory { IsErrOf result NoMemory → N.asking_takes_memory ≡ true }
{
    if !are_same(notary, id, eras, sealed)? {
        return Ok(Answer::Differs);
    }
    if is_absent(notary, id, sealed + 1)? {
        Ok(Answer::Same)
    } else {
        Ok(Answer::Differs)
    }
}

/// Whether each of so many eras but the first is the one that was filed.
fn are_same<N: Notary>(
    notary: &mut N,
    id: u64,
    eras: &Eras,
    sealed: u32,
) -> Result<bool, NotaryFail>
    requires few { sealed ≤ 255 }
    ensures told { WhereTold (N.state notary.old).lists (N.state notary.new).lists (λ before after.
        (h : History) → eras.now ≡ policy_of h
        → IfOk result (λ all. all ≡ list_all (is_era_same (before.batches id) h) (range_with_len 1 sealed))) }
    ensures only { IsAsked result }
    ensures same { Unchanged (N.state notary.old) (N.state notary.new) }
    ensures asked { (N.state notary.new).asked ≤ (N.state notary.old).asked + sealed }
    ensures frame { GoesOn (N.state notary.old) (N.state notary.new) }
    ensures cause { HasCause Failed (N.state notary.old).faults (N.state notary.new).faults result }
    ensures counted { IsCounted in_doubt (N.state notary.old) (N.state notary.new) result }
    ensures memory { IsErrOf result NoMemory → N.asking_takes_memory ≡ true }
{
    for number in 1..sealed + 1 {
        if !is_same(notary, id, eras, number)? {
            return Ok(false);
        }
    }
    Ok(true)
}

/// Whether the era of a number is the one that was filed.
fn is_same<N: Notary>(notary: &mut N, id: u64, eras: &Eras, number: u32) -> Result<bool, NotaryFail>
    ensures told { WhereTold (N.state notary.old).lists (N.state notary.new).lists (λ before after.
        (h : History) → eras.now ≡ policy_of h → IfOk result (λ same. same ≡ is_era_same (before.batches id) h number)) }
    ensures only { IsAsked result }
    ensures same { Unchanged (N.state notary.old) (N.state notary.new) }
    ensures asked { (N.state notary.new).asked ≤ (N.state notary.old).asked + 1 }
    ensures frame { GoesOn (N.state notary.old) (N.state notary.new) }
    ensures cause { HasCause Failed (N.state notary.old).faults (N.state notary.new).faults result }
    ensures counted { IsCounted in_doubt (N.state notary.old) (N.state notary.new) result }
    ensures memory { IsErrOf result NoMemory → N.asking_takes_memory ≡ true }
{
    let digest = digest_of(eras, number);
    match notary.ask(id, Name::Era { era: number }, &digest)? {
        Answer::Same => Ok(true),
        Answer::Differs | Answer::Absent => Ok(false),
    }
}

/// Whether no digest was filed under the name of an era.
fn is_absent<N: Notary>(notary: &mut N, id: u64, number: u32) -> Result<bool, NotaryFail>
    ensures told { WhereTold (N.state notary.old).lists (N.state notary.new).lists (λ before after.
        IfOk result (λ absent. absent ≡ is_no_era (before.batches id) number)) }
    ensures only { IsAsked result }
    ensures same { Unchanged (N.state notary.old) (N.state notary.new) }
    ensures asked { (N.state notary.new).asked ≤ (N.state notary.old).asked + 1 }
    ensures frame { GoesOn (N.state notary.old) (N.state notary.new) }
    ensures cause { HasCause Failed (N.state notary.old).faults (N.state notary.new).faults result }
    ensures counted { IsCounted in_doubt (N.state notary.old) (N.state notary.new) result }
    ensures memory { IsErrOf result NoMemory → N.asking_takes_memory ≡ true }
{
    match notary.ask(id, Name::Era { era: number }, &NO_DIGEST)? {
        Answer::Absent => Ok(true),
        Answer::Same | Answer::Differs => Ok(false),
    }
}

/// The digest of the era of a number; zeros where there is none.
fn digest_of(eras: &Eras, number: u32) -> [u8; 32]
    ensures value { (h : History) → eras.now ≡ policy_of h → result ≡ era_digest h number }
{
    match eras.at(number) {
        Some(era) => era_digest(number, &era),
        None => NO_DIGEST,
    }
}
