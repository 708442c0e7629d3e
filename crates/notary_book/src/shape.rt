//! The shape of a book.

ghost use Rattle.std.specs.Prelude.{◌≡◌, refl};
ghost use Rattle.std.proofs.Common.{lit<};
ghost use Rattle.notary_book.specs.Books.{book_head, is_book_head, book_shape};

use crate::skipping::is_call;
use txn_journal::Shape;

/// An open gate and the letters of the format.
const HEAD: [u8; 9] = *b"\xa7DRAGBOK1";

/// The first 64 bytes of a book.
pub(crate) fn book_head() -> [u8; 64]
    ensures value { result ≡ book_head }
{
    let mut out = [0; 64];
    out[..9].copy_from_slice(&HEAD);
    out
}

/// A book: behind its head each payload spells a call.
pub struct BookShape;

impl Shape for BookShape {
    const PAYLOAD: u32 = 262_144;

    const WHOLE: u64 = 2_147_483_648;

    ghost PAYLOAD = { 262144 };

    ghost WHOLE = { 2147483648 };

    ghost shape = { book_shape };

    ghost is_head = { is_book_head };

    ghost max_payload = { refl };

    ghost max_file = { refl };

    ghost payload_fits = { lit< tt };

    ghost whole_fits = { lit< tt };

    fn head(bytes: &[u8; 64]) -> bool {
        bytes == &book_head()
    }

    fn accepts(payload: &[u8]) -> bool {
        is_call(payload)
    }
}
