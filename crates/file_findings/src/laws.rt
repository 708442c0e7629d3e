//! What holds of the table.

ghost use Rattle.file_findings.specs.Laws.{NamesAreApart};

/// Each name is that of one kind.
pub fn names_are_apart()
    ensures law { NamesAreApart }
{}
