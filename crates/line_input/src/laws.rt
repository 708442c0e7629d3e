//! A law of the lines, as the contract of a function that does nothing.

ghost use Rattle.std.specs.Prelude.{◌≡◌, ℕ, List};
ghost use Rattle.line_input.specs.Lines.{IsSplit, complete_lines, unended};

/// Bytes are their complete lines, each with its feed, and an unended rest without one, and they
/// are no other lines and no other rest.
pub fn lines_are_the_only_ones()
    ensures split { (bytes : List ℕ) → IsSplit bytes (complete_lines bytes) (unended bytes) }
    ensures lines { (bytes rest : List ℕ) (lines : List (List ℕ)) → IsSplit bytes lines rest → lines ≡ complete_lines bytes }
    ensures rest { (bytes rest : List ℕ) (lines : List (List ℕ)) → IsSplit bytes lines rest → rest ≡ unended bytes }
{}
