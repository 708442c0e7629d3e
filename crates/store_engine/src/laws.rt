//! Laws of the definitions, each the contract of a function that does nothing.

ghost use Rattle.store_engine.specs.Leaving.{CutAppendLeavesOldOrNew, AppendAddsItem, AppendIsWithin, CutAppendLeavesFront, AppendPutsRecord};

/// What the writes of an append leave of any bytes that store something, whole and cut short anywhere:
/// the header and the items, or these and the new one, and always the bytes before the gate.
pub fn appends_leave_old_or_new()
    ensures cut { CutAppendLeavesOldOrNew }
    ensures whole { AppendAddsItem }
    ensures within { AppendIsWithin }
    ensures front { CutAppendLeavesFront }
    ensures puts { AppendPutsRecord }
{}
