//! Asking for a node.

ghost use Rattle.std.specs.Prelude.{◌≡◌, ◌≤◌, ◌+◌, IfErr};
ghost use Rattle.outside_words.specs.Faults.{HasCause};
ghost use Rattle.outside_words.specs.Told.{WhereTold};
ghost use Rattle.notary_link.specs.declared.fail.AskFail.TheVariants.{NotaryFault};
ghost use Rattle.notary_link.specs.Fails.{ask_in_doubt};
ghost use Rattle.notary_link.specs.Notary.{Unchanged, GoesOn, IsCounted};
ghost use Rattle.audit_model.specs.Laws.{nodes_of};
ghost use Rattle.a3d_forensics.specs.Asking.{Compares, IsNodeFail};
ghost use Rattle.a3d_forensics.specs.Trees.{IsOver, IsTreeOf};

use crate::tree::Tree;
use notary_link::{Answer, AskFail, Notary};
use seal_plan::{TreePlan, node_name};

/// Whether a node differs from what was filed.
pub(crate) fn differs<N: Notary>(
    plan: &TreePlan,
    notary: &mut N,
    id: u64,
    tree: Tree,
    level: u8,
    index: u32,
) -> Result<bool, AskFail>
    requires tree { IsTreeOf plan.now.history plan.now.tiles tree }
    requires over { IsOver tree.leaves level index }
    ensures value { WhereTold (N.state notary.old).lists (N.state notary.new).lists (λ before after.
        Compares tree.era (nodes_of (before.batches id) plan.now.history tree.era level index) level index result) }
    ensures only { IfErr result (IsNodeFail tree.era level index) }
    ensures same { Unchanged (N.state notary.old) (N.state notary.new) }
    ensures asked { (N.state notary.new).asked ≤ (N.state notary.old).asked + 1 }
    ensures frame { GoesOn (N.state notary.old) (N.state notary.new) }
    ensures cause { HasCause NotaryFault (N.state notary.old).faults (N.state notary.new).faults result }
    ensures counted { IsCounted ask_in_doubt (N.state notary.old) (N.state notary.new) result }
{
    let name = node_name(tree.era, level, index);
    match plan.digest(tree.era, level, index) {
        Some(digest) => match notary.ask(id, name, &digest)? {
            Answer::Same => Ok(false),
            Answer::Differs => Ok(true),
            Answer::Absent => Err(AskFail::SealMissing { name }),
        },
        None => Err(AskFail::SealMissing { name }),
    }
}
