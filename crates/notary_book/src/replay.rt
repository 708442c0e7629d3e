//! What the payloads of a file say, by going over them once.

ghost use Rattle.std.specs.Prelude.{◌∷◌, [], List, IfOk, IfSome};
ghost use Rattle.std.specs.List.{All};
ghost use Rattle.notary_link.specs.Notary.{Call};
ghost use Rattle.notary_book.specs.Books.{calls_in};
ghost use Rattle.notary_book.specs.Kept.{IsRead, ReadsOn, IsReadOf, IsSpelled};

use crate::decoding::decode;
use crate::pages::Pages;
use std::alloc::{AllocError, Global};
use tuple_bytes::Blob;

/// The pages of the calls that the payloads spell. Nothing comes back where one may not come next.
pub(crate) fn read_pages(alloc: Global, payloads: &[Blob]) -> Result<Option<Pages>, AllocError>
    ensures value { IfOk result (IsReadOf (calls_in payloads.now)) }
    ensures spelled { IfOk result (λ found. IfSome found (λ pages. All IsSpelled payloads.now)) }
{
    let mut pages = Pages::new(alloc);
    for payload in payloads {
        let follows = read_next(alloc, &mut pages, payload.as_slice())?;
        if !follows {
            return Ok(None);
        }
    }
    Ok(Some(pages))
}

/// Adds the call that a payload spells, and answers whether it may come next.
fn read_next(alloc: Global, pages: &mut Pages, payload: &[u8]) -> Result<bool, AllocError>
    ensures value { IfOk result (λ next. (calls : List Call) → IsRead calls pages.old
        → ReadsOn calls (calls_in (payload.now ∷ [])) next pages.new) }
    ensures spelled { IsSpelled payload.now }
{
    match decode(alloc, payload)? {
        Some(entry) => pages.take(alloc, &entry),
        None => Ok(true),
    }
}
