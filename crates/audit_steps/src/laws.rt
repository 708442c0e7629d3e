//! What follows from what an auditor stands for, each law the contract of a function that does nothing.

ghost use Rattle.audit_steps.specs.Auditing.{AuditStays};

/// Where items are appended and no place is lost, an auditor of the bytes is one of the new bytes.
pub fn audit_stays()
    ensures { AuditStays }
{}
