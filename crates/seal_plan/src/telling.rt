//! What a plan's digests are told to be of.

ghost use Rattle.std.specs.Prelude.{◌≡◌};
ghost use Rattle.history_model.specs.Stored.{items_of};

use history_model::Spelled;
use tile_seals::Told;

/// The spellings of these items. Nothing is done when it runs.
pub(crate) fn tell(items: &Spelled) -> Told
    ensures value { items_of result.spellings ≡ items.now }
{
    let mut told = Told::none();
    for spelling in items.as_slice() {
        told.note(spelling.as_slice());
    }
    told
}
