//! The digest of a tile, or of a part of it.

ghost use Rattle.std.specs.Prelude.{◌≡◌, ◌≤◌, ◌<◌, ◌^◌, ◌⊎◌, length};
ghost use Rattle.digest_model.specs.Digests.{part_over};
ghost use Rattle.digest_model.specs.Layout.{is_in_part, whole};
ghost use Rattle.tile_chains.specs.Part.{digests_in_part};

use sha2::{Digest, Sha256};

/// The part that is the whole tile.
pub const WHOLE: u8 = 255;

/// Whether a granule's number within its tile belongs to the part.
fn is_in_part(part: u8, number: u32) -> bool
    requires { (part ≡ whole) ⊎ (part < 32) }
    ensures { result ≡ is_in_part part number }
{
    part == WHOLE || (number >> part) & 1 == 0
}

/// `SHA-256(03 | tile | part | the granule digests of the part)`, of a tile of `2^k` granules.
///
/// Part 255 is the whole tile; part b has the granules whose number within the tile has bit b equal to 0.
pub fn tile_digest(tile: u32, part: u8, k: u8, granule_digests: &[[u8; 32]]) -> [u8; 32]
    requires exponent { k ≤ 10 }
    requires granules { length granule_digests.now ≡ 2 ^ k }
    requires part { (part ≡ whole) ⊎ (part < k) }
    ensures value { result ≡ part_over tile part (digests_in_part part granule_digests.now) }
{
    let mut hasher = Sha256::new();
    hasher.update([3u8]);
    hasher.update(tile.to_be_bytes());
    hasher.update([part]);
    for (number, digest) in granule_digests.iter().enumerate() {
        if is_in_part(part, number as u32) {
            hasher.update(digest);
        }
    }
    hasher.finalize()
}
