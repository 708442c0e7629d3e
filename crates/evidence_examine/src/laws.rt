//! Laws, each the contract of a function that does nothing.

ghost use Rattle.evidence_examine.specs.Places.{PlacesAreNamed};
ghost use Rattle.evidence_examine.specs.Laws.{RightPlacesAreNotarized, OtherListsDiffer, SameListsAreNotarized, NotarizedListsAreSame, OtherGranulesAreMissing};

/// The eras that a file is examined by are its own, behind the era of its header.
pub fn places_are_named()
    ensures places { PlacesAreNamed }
{}

/// A file that is right has the notarized header and eras, unless two of their inputs clash.
pub fn right_places_are_notarized()
    ensures places { RightPlacesAreNotarized }
{}

/// A list that is called not as notarized is another one, unless two inputs of headers or eras clash.
pub fn other_lists_differ()
    ensures lists { OtherListsDiffer }
{}

/// A list that is called as notarized is the notarized one, unless two such inputs clash, or two of the list.
pub fn same_lists_are_notarized()
    ensures lists { SameListsAreNotarized }
{}

/// The notarized list of a granule that has a leaf is called as notarized, unless two such inputs clash.
pub fn notarized_lists_are_same()
    ensures lists { NotarizedListsAreSame }
{}

/// There is no line of a granule that has no leaf, unless two such inputs clash.
pub fn other_granules_are_missing()
    ensures granules { OtherGranulesAreMissing }
{}
