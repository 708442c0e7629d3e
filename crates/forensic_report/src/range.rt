//! The tiles of an analysis: whether there are any, and the chains that they have.

ghost use Rattle.std.specs.Prelude.{◌≡◌, ◌≤◌, true, IfSome};
ghost use Rattle.history_model.specs.History.{History};
ghost use Rattle.digest_model.specs.Layout.{policy_of};
ghost use Rattle.forensic_report.specs.Finding.{has_era, has_chains};

use crate::algorithm::{Algorithm, Asked};
use a3d_forensics::{Chains, range_has};
use policy_eras::Eras;

/// Whether there is an era of this number, where one is named.
pub(crate) fn has_era(eras: &Eras, era: Option<u32>) -> bool
    ensures value { (s : History) → eras.now ≡ policy_of s → result ≡ has_era era s }
    ensures small { result ≡ true → IfSome era (λ number. number ≤ 255) }
{
    match era {
        Some(number) => number < eras.count(),
        None => true,
    }
}

/// Whether each tile of the range has the chains that are asked for; or the header, where no tile is
/// sealed and no era is named.
pub(crate) fn has_chains(asked: Asked, eras: &Eras) -> bool
    requires small { IfSome asked.era (λ number. number ≤ 255) }
    ensures value { (s : History) → eras.now ≡ policy_of s → result ≡ has_chains asked.algorithm asked.era s asked.tiles }
{
    match asked.algorithm {
        Algorithm::Mono => true,
        Algorithm::Tiled | Algorithm::TiledExactly { .. } => {
            range_has(eras, asked.era, asked.tiles, Chains::Tiles)
        }
        Algorithm::A3d => range_has(eras, asked.era, asked.tiles, Chains::Tree),
    }
}
