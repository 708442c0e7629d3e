//! The search for the first bad tile, by halves.

ghost use Rattle.std.specs.Prelude.{◌≡◌, ◌≤◌, ◌<◌, ◌+◌, true, IfOk, IfSome, IsErrOf, IsOk, length};
ghost use Rattle.outside_words.specs.Faults.{HasCause};
ghost use Rattle.outside_words.specs.Told.{WhereTold};
ghost use Rattle.notary_link.specs.declared.fail.AskFail.TheVariants.{NotaryFault, NoMemory};
ghost use Rattle.notary_link.specs.Fails.{ask_in_doubt};
ghost use Rattle.notary_link.specs.Notary.{Unchanged, GoesOn, IsCounted};
ghost use Rattle.digest_model.specs.Layout.{max_granules};
ghost use Rattle.audit_model.specs.Tree.{digit_count};
ghost use Rattle.mono_forensics.specs.Finds.{link_answers, Finds, Compares, IsFindFail};
ghost use Rattle.mono_forensics.specs.Sure.{FailsNoQuestion, HoldsTiles};

use notary_link::{Answer, AskFail, Name, Notary};

/// The first bad tile, where the last one differs.
///
/// The tile before those that are still looked at is the same, and the last of them differs. So the
/// one that is left at the end begins a region, whatever was answered of the others.
pub fn first_bad<N: Notary>(
    links: &[[u8; 32]],
    notary: &mut N,
    id: u64,
) -> Result<Option<u32>, AskFail>
    requires some { 1 ≤ length links.now }
    requires few { length links.now ≤ max_granules }
    ensures value { WhereTold (N.state notary.old).lists (N.state notary.new).lists
        (λ before after. Finds (link_answers before id links.now) (length links.now) result) }
    ensures within { IfOk result (λ found. IfSome found (λ tile. tile < length links.now)) }
    ensures only { IsFindFail (length links.now) result }
    ensures same { Unchanged (N.state notary.old) (N.state notary.new) }
    ensures asked { (N.state notary.new).asked
        ≤ (N.state notary.old).asked + digit_count (length links.now) + 2 }
    ensures frame { GoesOn (N.state notary.old) (N.state notary.new) }
    ensures cause { HasCause NotaryFault (N.state notary.old).faults (N.state notary.new).faults result }
    ensures counted { IsCounted ask_in_doubt (N.state notary.old) (N.state notary.new) result }
    ensures memory { IsErrOf result NoMemory → N.asking_takes_memory ≡ true }
    ensures always { FailsNoQuestion N.asking_takes_memory (N.state notary.old)
        → HoldsTiles (N.state notary.old).lists id (length links.now) → IsOk result }
{
    let last = links.len() as u32 - 1;
    if !differs(links, notary, id, last)? {
        return Ok(None);
    }
    let mut low = 0;
    let mut high = last;
    while low < high {
        let middle = low + (high - low) / 2;
        if differs(links, notary, id, middle)? {
            high = middle;
        } else {
            low = middle + 1;
        }
    }
    Ok(Some(high))
}

// Whether the chain at the end of a tile is another one than was filed.
fn differs<N: Notary>(
    links: &[[u8; 32]],
    notary: &mut N,
    id: u64,
    tile: u32,
) -> Result<bool, AskFail>
    requires within { tile < length links.now }
    ensures value { WhereTold (N.state notary.old).lists (N.state notary.new).lists
        (λ before after. Compares (link_answers before id links.now) tile result) }
    ensures only { IsFindFail (length links.now) result }
    ensures same { Unchanged (N.state notary.old) (N.state notary.new) }
    ensures asked { (N.state notary.new).asked ≤ (N.state notary.old).asked + 1 }
    ensures frame { GoesOn (N.state notary.old) (N.state notary.new) }
    ensures cause { HasCause NotaryFault (N.state notary.old).faults (N.state notary.new).faults result }
    ensures counted { IsCounted ask_in_doubt (N.state notary.old) (N.state notary.new) result }
    ensures memory { IsErrOf result NoMemory → N.asking_takes_memory ≡ true }
    ensures always { FailsNoQuestion N.asking_takes_memory (N.state notary.old)
        → HoldsTiles (N.state notary.old).lists id (length links.now) → IsOk result }
{
    let name = Name::Cum { tile };
    match notary.ask(id, name, &links[tile as usize])? {
        Answer::Same => Ok(false),
        Answer::Differs => Ok(true),
        Answer::Absent => Err(AskFail::SealMissing { name }),
    }
}
