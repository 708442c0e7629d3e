//! The shape of a store file.

ghost use Rattle.std.specs.Prelude.{is_some, refl};
ghost use Rattle.std.proofs.Common.{lit<};
ghost use Rattle.history_model.specs.Stored.{store_shape};
ghost use Rattle.tuple_bytes.specs.HeaderBytes.{header_of};
ghost use Rattle.tuple_bytes.specs.Limits.{max_payload, max_file};

use crate::Shape;
use tuple_bytes::{MAX_FILE, MAX_PAYLOAD, decode_header, is_item};

/// The store: behind its header each payload spells an item.
pub struct StoreShape;

impl Shape for StoreShape {
    const PAYLOAD: u32 = MAX_PAYLOAD as u32;

    const WHOLE: u64 = MAX_FILE as u64;

    ghost PAYLOAD = { max_payload };

    ghost WHOLE = { max_file };

    ghost shape = { store_shape };

    ghost is_head = { λ bytes. is_some (header_of bytes) };

    ghost max_payload = { refl };

    ghost max_file = { refl };

    ghost payload_fits = { lit< tt };

    ghost whole_fits = { lit< tt };

    fn head(bytes: &[u8; 64]) -> bool {
        decode_header(bytes).is_some()
    }

    fn accepts(payload: &[u8]) -> bool {
        is_item(payload)
    }
}
