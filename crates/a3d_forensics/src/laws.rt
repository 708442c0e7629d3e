//! Which granules the trees have, what stops a descent, and how many nodes it asks, each law the contract of a function that does nothing.

ghost use Rattle.a3d_forensics.specs.Laws.{TreesCoverRange, EndedIsConsistent, AuditEnds, NotaryIsConsistent, LeavesAreAltered, NotarizedHasNone, ChecksCountForks};
ghost use Rattle.a3d_forensics.specs.Examples.{WorkedDescents};

use audit_model::{
    answers_compare, descent_has_altered, descent_is_altered, nodes_are_consistent,
    tree_is_consistent,
};

/// The trees of a range have the granules of its tiles, and no others.
pub fn trees_cover_range()
    ensures { TreesCoverRange }
{}

/// Where nothing stops a descent, a child differs below each node that differs.
pub fn ended_is_consistent()
    ensures { EndedIsConsistent }
{}

/// Nothing stops the descent over a history under the notarized header and eras.
pub fn audit_ends()
    ensures { AuditEnds }
{
    answers_compare();
    tree_is_consistent();
}

/// A notary that holds the batches of a history is not inconsistent.
pub fn notary_is_consistent()
    ensures { NotaryIsConsistent }
{
    nodes_are_consistent();
}

/// The granules that are found are the altered ones of the range, unless two inputs clash.
pub fn leaves_are_altered()
    ensures { LeavesAreAltered }
{
    descent_has_altered();
    descent_is_altered();
}

/// Of a notarized history nothing is found.
pub fn notarized_has_none()
    ensures { NotarizedHasNone }
{}

/// Two checks are made for each node above the leaves that is reached and differs.
pub fn checks_count_forks()
    ensures { ChecksCountForks }
{}

/// Descents worked by hand.
pub fn worked_descents()
    ensures { WorkedDescents }
{}
