//! What the answers of a notary show, each law the contract of a function that does nothing.

ghost use Rattle.audit_model.specs.Examples.{WorkedExamples};
ghost use Rattle.audit_model.specs.Filing.{AddedStaysNotarized, FrontierStaysFiled, FrontierFilesSame, FilingBegins, FilingExtends, BatchesMayBeFiled, BatchesAreShort};
ghost use Rattle.audit_model.specs.Laws.{CandidatesAreExact, CandidatesAmongAreExact, FoundAreExact, ChecksAreFew, AnswersCompare, OthersAreAbsent, BatchesAreCounted, OtherHeaderIsAltered, SameChainIsClean, RegionHasAltered, CandidatesHaveAltered, DescentHasAltered, DescentIsAltered, HeaderIsShown, RegionBeginsAltered, FailingTileIsAltered, ChangedChainHasAltered, TreeIsConsistent, NodesAreConsistent, HeadersAreOneOrOther, RefusedHeaderIsOther, StepIsRegion, CandidatesAmongHaveAltered, FoundAscend, NotarizedIsSame, HeldIsSame};

/// The candidates of a tile are the numbers that have every bit of the target.
pub fn candidates_are_exact()
    ensures { CandidatesAreExact }
{}

/// Under sets of one size they are the target alone, all candidates, or none.
pub fn candidates_among_are_exact()
    ensures { CandidatesAmongAreExact }
{}

/// The descent finds the leaves that are reached and differ.
pub fn found_are_exact()
    ensures { FoundAreExact }
{}

/// It asks few nodes for each leaf that it finds.
pub fn checks_are_few()
    ensures { ChecksAreFew }
{}

/// The definitions give the worked examples.
pub fn worked_examples()
    ensures { WorkedExamples }
{}

/// For a planned name the notary compares the two digests.
pub fn answers_compare()
    ensures { AnswersCompare }
{}

/// It knows no other name.
pub fn others_are_absent()
    ensures { OthersAreAbsent }
{}

/// There is a batch for the header, and one for each sealed tile.
pub fn batches_are_counted()
    ensures { BatchesAreCounted }
{}

/// Under another header, or none, every sealed granule is altered.
pub fn other_header_is_altered()
    ensures { OtherHeaderIsAltered }
{}

/// Where the chain is the same, nothing is altered up to there, unless two inputs clash.
pub fn same_chain_is_clean()
    ensures { SameChainIsClean }
{}

/// The region of the Monochromatic analysis has every altered granule, unless two inputs clash.
pub fn region_has_altered()
    ensures { RegionHasAltered }
{}

/// The candidates of a tile have every altered granule, unless two inputs clash.
pub fn candidates_have_altered()
    ensures { CandidatesHaveAltered }
{}

/// The descent of the tree finds every altered granule, unless two inputs clash.
pub fn descent_has_altered()
    ensures { DescentHasAltered }
{}

/// It finds no other granule.
pub fn descent_is_altered()
    ensures { DescentIsAltered }
{}

/// The header's answer shows the header and the sealed eras, unless two inputs clash.
pub fn header_is_shown()
    ensures { HeaderIsShown }
{}

/// A file has the notarized header and eras, or others.
pub fn headers_are_one_or_other()
    ensures { HeadersAreOneOrOther }
{}

/// Where the header's answer differs, it or an era is another one.
pub fn refused_header_is_other()
    ensures { RefusedHeaderIsOther }
{}

/// The region begins at an altered tile, unless two inputs clash.
pub fn region_begins_altered()
    ensures { RegionBeginsAltered }
{}

/// A tile that differs has an altered granule.
pub fn failing_tile_is_altered()
    ensures { FailingTileIsAltered }
{}

/// Where the chain differs, some granule up to there is altered.
pub fn changed_chain_has_altered()
    ensures { ChangedChainHasAltered }
{}

/// A node that differs has a child that does.
pub fn tree_is_consistent()
    ensures { TreeIsConsistent }
{}

/// A node that differs, of whatever history, has a child that is not the same.
pub fn nodes_are_consistent()
    ensures { NodesAreConsistent }
{}

/// Answers that change once show where the region begins.
pub fn step_is_region()
    ensures { StepIsRegion }
{}

/// Where kappa granules of a tile are altered, they are candidates among sets of kappa members, unless two inputs clash.
pub fn candidates_among_have_altered()
    ensures { CandidatesAmongHaveAltered }
{}

/// The leaves that a descent finds ascend.
pub fn found_ascend()
    ensures { FoundAscend }
{}

/// A notarized history is answered the same for each planned name.
pub fn notarized_is_same()
    ensures { NotarizedIsSame }
{}

/// Bytes that hold what is filed, as each image of a sound store, are answered the same for each planned name.
pub fn held_is_same()
    ensures { HeldIsSame }
{}

/// A notarized history stays so with an item that is not before its last moment.
pub fn added_stays_notarized()
    ensures { AddedStaysNotarized }
{}

/// A frontier leaves what is filed.
pub fn frontier_stays_filed()
    ensures { FrontierStaysFiled }
{}

/// It leaves each batch.
pub fn frontier_files_same()
    ensures { FrontierFilesSame }
{}

/// With the header's batch alone no tile is sealed.
pub fn filing_begins()
    ensures { FilingBegins }
{}

/// With the batch of the next tile one tile more is sealed.
pub fn filing_extends()
    ensures { FilingExtends }
{}

/// Each batch may be filed: it has at most 4,096 seals, of names that a notary takes.
pub fn batches_may_be_filed()
    ensures { BatchesMayBeFiled }
{}

/// None has more than 2,314 seals.
pub fn batches_are_short()
    ensures { BatchesAreShort }
{}
