//! What holds of scripts. Each is the contract of a function that does nothing.

ghost use Rattle.workload_laws.specs.Read.{ScriptsAreRead};
ghost use Rattle.workload_laws.specs.Rising.{ScriptsRise};
ghost use Rattle.workload_laws.specs.Taken.{ScriptsAreTaken};

/// No change of a script is refused by tables without the script's own.
pub fn scripts_are_taken()
    ensures { ScriptsAreTaken }
{}

/// The text of a script is its statements, a line each, and each line is read again as its statement. A moment above the
/// grammar's last is refused NumberTooWide.
pub fn scripts_are_read()
    ensures { ScriptsAreRead }
{}

/// The moments of a script do not fall, and it has two statements a step and three more.
pub fn scripts_rise()
    ensures { ScriptsRise }
{}
