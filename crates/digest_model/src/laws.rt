//! What equal digests say, each law the contract of a function that does nothing.

ghost use Rattle.digest_model.specs.Eras.{LaterItemsLeaveTiles, SealedErasComeFirst, EqualErasHaveEqualTiles, TilesOfAnEraAreEven, ErasAreRestored};
ghost use Rattle.digest_model.specs.Roots.{RootsCover, WorkedRoots};
ghost use Rattle.digest_model.specs.Laws.{HistoriesHaveSpellings, HeadersTellApart, ErasTellApart, LinksTellApart, StoresTellApart, CumsTellApart, GranulesTellApart, TilesTellApart, NodesTellApart, SameDigests};

/// The header and the items of a history that a file can hold have spellings.
pub fn histories_have_spellings()
    ensures { HistoriesHaveSpellings }
{}

/// Equal header digests are of one header, unless the two inputs clash.
pub fn headers_tell_apart()
    ensures { HeadersTellApart }
{}

/// Equal digests of an era are of one era, unless the two inputs clash.
pub fn eras_tell_apart()
    ensures { ErasTellApart }
{}

/// Equal links are of one header and one list of spellings, unless two inputs clash.
pub fn links_tell_apart()
    ensures { LinksTellApart }
{}

/// Equal links over all transactions are of one header and one list of them, unless two inputs clash.
pub fn stores_tell_apart()
    ensures { StoresTellApart }
{}

/// Equal links at the end of a tile are of one header and the same transactions up to there, unless two inputs clash.
pub fn cums_tell_apart()
    ensures { CumsTellApart }
{}

/// Equal digests of a granule are of the same transactions, unless the two inputs clash.
pub fn granules_tell_apart()
    ensures { GranulesTellApart }
{}

/// Equal digests of a part of a tile are of the same transactions in each of its granules, unless two inputs clash.
pub fn tiles_tell_apart()
    ensures { TilesTellApart }
{}

/// Equal digests of a node are of the same transactions in each granule below it, unless two inputs clash.
pub fn nodes_tell_apart()
    ensures { NodesTellApart }
{}

/// The same transactions have the same digests.
pub fn same_digests()
    ensures { SameDigests }
{}

/// Each granule lies below one root, and nothing else does.
pub fn roots_cover()
    ensures { RootsCover }
{}

/// The roots over twelve and over 168 granules.
pub fn worked_roots()
    ensures { WorkedRoots }
{}

/// Items that leave the first tiles leave them where they were.
pub fn later_items_leave_tiles()
    ensures { LaterItemsLeaveTiles }
{}

/// The eras of the first tiles are those that begin there, and come before all others.
pub fn sealed_eras_come_first()
    ensures { SealedErasComeFirst }
{}

/// One header, and the same eras of the first tiles, place these tiles alike.
pub fn equal_eras_have_equal_tiles()
    ensures { EqualErasHaveEqualTiles }
{}

/// Within an era each tile has as many granules.
pub fn tiles_of_an_era_are_even()
    ensures { TilesOfAnEraAreEven }
{}

/// Policies that name the eras of more tiles as they begin in another history restore them.
pub fn eras_are_restored()
    ensures { ErasAreRestored }
{}
