//! The descent, a tree after the other, and in each a root after the other.

ghost use Rattle.std.specs.Prelude.{◌≡◌, ◌≤◌, ◌<◌, ◌+◌, ◌*◌, ◌^◌, ◌↔◌, [], ◌∷◌, false, All, Contains, length, IsErrOf, IfErr, IfOk, IfSome, OnOk};
ghost use Rattle.std.specs.List.Sorted.{IsStrictlyIncreasing};
ghost use Rattle.outside_words.specs.Faults.{HasCause};
ghost use Rattle.outside_words.specs.Told.{WhereTold};
ghost use Rattle.notary_link.specs.declared.fail.AskFail.TheVariants.{NotaryFault, NotSealedSo};
ghost use Rattle.notary_link.specs.Fails.{ask_in_doubt};
ghost use Rattle.notary_link.specs.Notary.{Unchanged, GoesOn, IsCounted};
ghost use Rattle.digest_model.specs.Layout.{layout, policy_of, tile_of, has_tree};
ghost use Rattle.audit_model.specs.Laws.{nodes_of};
ghost use Rattle.audit_model.specs.Asked.{IsTold};
ghost use Rattle.audit_model.specs.Ranges.{range_of, range_has};
ghost use Rattle.a3d_forensics.specs.Descent.{tree_told, IsDescentFail, IsBelowFail};
ghost use Rattle.a3d_forensics.specs.Rooted.{root_at_level, GoesOver, GoesThrough, IsFoundAbove};
ghost use Rattle.a3d_forensics.specs.Trees.{trees_of, checks_bound, IsTreeOf};

use crate::asking::differs;
use crate::below::descend;
use crate::chains::Chains;
use crate::found::A3dFound;
use crate::granulars::Granulars;
use crate::range::{eras_of, range_has, tree_of};
use crate::tree::Tree;
use notary_link::{AskFail, Notary};
use seal_plan::TreePlan;
use std::alloc::Global;

/// The altered granules among those of an era's tiles; of all tiles of the plan, where no era is named.
pub fn altered<N: Notary>(
    alloc: Global,
    plan: &TreePlan,
    notary: &mut N,
    id: u64,
    era: Option<u32>,
) -> Result<A3dFound, AskFail>
    requires known { IfSome era (λ number. number ≤ length (policy_of plan.now.history).later) }
    ensures value { WhereTold (N.state notary.old).lists (N.state notary.new).lists (λ before after.
        IsTold (tree_told (before.batches id) plan.now.history era plan.now.tiles) result) }
    ensures sealed_so { IsErrOf result NotSealedSo ↔ range_has has_tree era plan.now.history plan.now.tiles ≡ false }
    ensures unasked { IsErrOf result NotSealedSo → N.state notary.new ≡ N.state notary.old }
    ensures ascending { IfOk result (λ found. IsStrictlyIncreasing found.granules) }
    ensures within { IfOk result (λ found. All (λ g.
        Contains (range_of era (layout plan.now.history) plan.now.tiles) (tile_of (layout plan.now.history) g)) found.granules) }
    ensures few { IfOk result (λ found. found.checks ≤ checks_bound era (layout plan.now.history) plan.now.tiles (length found.granules)) }
    ensures only { IfErr result (IsDescentFail (trees_of era (layout plan.now.history) plan.now.tiles)) }
    ensures same { Unchanged (N.state notary.old) (N.state notary.new) }
    ensures asked { IfOk result (λ found. (N.state notary.new).asked ≤ (N.state notary.old).asked + found.checks) }
    ensures frame { GoesOn (N.state notary.old) (N.state notary.new) }
    ensures cause { HasCause NotaryFault (N.state notary.old).faults (N.state notary.new).faults result }
    ensures counted { IsCounted ask_in_doubt (N.state notary.old) (N.state notary.new) result }
{
    if !range_has(plan.eras(), era, plan.tiles(), Chains::Tree) {
        return Err(AskFail::NotSealedSo);
    }
    let mut found = A3dFound {
        granules: Granulars::new(alloc),
        checks: 0,
    };
    for number in eras_of(plan.eras(), era, plan.tiles()) {
        descend_tree(plan, notary, id, tree_of(plan, number), &mut found)?;
    }
    Ok(found)
}

/// Finds the altered granules of a tree, a root after the other.
fn descend_tree<N: Notary>(
    plan: &TreePlan,
    notary: &mut N,
    id: u64,
    tree: Tree,
    found: &mut A3dFound,
) -> Result<(), AskFail>
    requires tree { IsTreeOf plan.now.history plan.now.tiles tree }
    requires room { found.old.checks ≤ 2 * tree.first }
    ensures told { WhereTold (N.state notary.old).lists (N.state notary.new).lists (λ before after.
        GoesThrough (nodes_of (before.batches id) plan.now.history) (tree ∷ []) result found.old found.new) }
    ensures above { OnOk result (IsFoundAbove tree 0 found.old found.new) }
    ensures only { IfErr result (IsBelowFail tree) }
    ensures same { Unchanged (N.state notary.old) (N.state notary.new) }
    ensures asked { OnOk result ((N.state notary.new).asked + found.old.checks ≤ (N.state notary.old).asked + found.new.checks) }
    ensures frame { GoesOn (N.state notary.old) (N.state notary.new) }
    ensures cause { HasCause NotaryFault (N.state notary.old).faults (N.state notary.new).faults result }
    ensures counted { IsCounted ask_in_doubt (N.state notary.old) (N.state notary.new) result }
{
    for level in (0..32).rev() {
        descend_root(plan, notary, id, tree, level, found)?;
    }
    Ok(())
}

/// Asks for the root of a level, where there is one, and finds the altered granules below it.
fn descend_root<N: Notary>(
    plan: &TreePlan,
    notary: &mut N,
    id: u64,
    tree: Tree,
    level: u8,
    found: &mut A3dFound,
) -> Result<(), AskFail>
    requires tree { IsTreeOf plan.now.history plan.now.tiles tree }
    requires level { level < 32 }
    requires room { found.old.checks + 2 * tree.leaves < 2 ^ 23 }
    ensures told { WhereTold (N.state notary.old).lists (N.state notary.new).lists (λ before after.
        GoesOver tree (nodes_of (before.batches id) plan.now.history tree.era) (root_at_level tree.leaves level) result found.old found.new) }
    ensures above { (start : A3dFound) → IsFoundAbove tree (level + 1) start found.old → OnOk result (IsFoundAbove tree level start found.new) }
    ensures only { IfErr result (IsBelowFail tree) }
    ensures same { Unchanged (N.state notary.old) (N.state notary.new) }
    ensures asked { OnOk result ((N.state notary.new).asked + found.old.checks ≤ (N.state notary.old).asked + found.new.checks) }
    ensures frame { GoesOn (N.state notary.old) (N.state notary.new) }
    ensures cause { HasCause NotaryFault (N.state notary.old).faults (N.state notary.new).faults result }
    ensures counted { IsCounted ask_in_doubt (N.state notary.old) (N.state notary.new) result }
{
    let nodes = tree.leaves >> level;
    if nodes % 2 == 0 {
        return Ok(());
    }
    let root = nodes - 1;
    let differs = differs(plan, notary, id, tree, level, root)?;
    found.checks += 1;
    descend(plan, notary, id, tree, level, root, differs, found)
}
