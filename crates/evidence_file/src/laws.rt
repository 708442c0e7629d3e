//! Laws, each the contract of a function that does nothing.

ghost use Rattle.std.specs.Prelude.{◌≡◌, List, ℕ, Some};
ghost use Rattle.byte_grammar.specs.Reading.{IsBytes, IsPrefixFree};
ghost use Rattle.evidence_file.specs.declared.evidence.Evidence.{Evidence};
ghost use Rattle.evidence_file.specs.Evidence.{FitsEvidence, SpellsEvidence, spell_evidence};
ghost use Rattle.evidence_file.specs.Reading.{evidence_of};
ghost use Rattle.evidence_file.specs.Gathering.{GatheredFits};
ghost use Rattle.evidence_file.specs.Shown.{SameListIsNotarized, DifferingListIsOther, NotarizedListIsSame, LeavesAreFiled};

/// No spelling of a file begins another. So no two files have one spelling, and bytes spell one file at most.
pub fn no_spelling_begins_another()
    ensures files { IsPrefixFree spell_evidence FitsEvidence }
{}

/// What bytes are read as is what they spell.
pub fn what_is_read_is_spelled()
    ensures files { (x : List ℕ) (e : Evidence) → IsBytes x → evidence_of x ≡ Some e → SpellsEvidence e x }
{}

/// What bytes spell is what they are read as. So reading what was written gives the file again.
pub fn a_spelling_is_read()
    ensures files { (x : List ℕ) (e : Evidence) → SpellsEvidence e x → evidence_of x ≡ Some e }
{}

/// What a store and its copy hold in granules that ascend has a spelling.
pub fn gathered_fits()
    ensures files { GatheredFits }
{}

/// Under each sealed granule whose era has the tree its digest is filed, by the name of its leaf.
pub fn leaves_are_filed()
    ensures leaves { LeavesAreFiled }
{}

/// A list whose digest is answered Same is the notarized one, unless its input and the notarized one clash.
pub fn same_list_is_notarized()
    ensures lists { SameListIsNotarized }
{}

/// A list whose digest is answered Differs is another one.
pub fn differing_list_is_other()
    ensures lists { DifferingListIsOther }
{}

/// The notarized list is answered Same.
pub fn notarized_list_is_same()
    ensures lists { NotarizedListIsSame }
{}
