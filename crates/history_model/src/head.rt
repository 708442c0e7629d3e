//! The head of a store file, of either format.

ghost use Rattle.std.specs.Prelude.{◌≡◌, IfSome};
ghost use Rattle.tuple_bytes.specs.Spelling.{FitsHeader};
ghost use Rattle.history_model.specs.Heads.{is_segmented, format_by, as_first, spell_head, any_header, is_segment_head};
ghost use Rattle.history_model.specs.Stored.{front_header, format_of};
ghost use Rattle.history_model.specs.Front.{header_in, format_in};

use crate::format::Format;
use tuple_bytes::{Header, decode_header, encode_header};

/// What the head of a file says.
#[derive(Clone, Copy, Debug, PartialEq, Eq)]
pub struct Front {
    pub format: Format,
    pub header: Header,
}

/// The place of the letter that tells the formats apart.
const PLACE: usize = 8;

/// The letter of a file in one run, and that of a file in segments.
const FIRST: u8 = b'1';

const SEGMENTED: u8 = b'2';

/// The format that the letter of a head names. Every letter but a 2 is that of the first.
fn format_in(head: &[u8; 64]) -> Format
    ensures value { result ≡ format_by (is_segmented head.now) }
{
    if head[PLACE] == SEGMENTED {
        Format::Two
    } else {
        Format::One
    }
}

/// The head of a file in one run, with the same fields.
fn as_first(head: &[u8; 64]) -> [u8; 64]
    ensures value { result ≡ as_first head.now }
{
    let mut first = *head;
    if first[PLACE] == SEGMENTED {
        first[PLACE] = FIRST;
    }
    first
}

/// What a head says, or nothing where it spells no header.
fn front_of_head(head: &[u8; 64]) -> Option<Front>
    ensures header { header_in result ≡ any_header head.now }
    ensures format { IfSome result (λ front. front.format ≡ format_by (is_segmented head.now)) }
    ensures fits { IfSome result (λ front. FitsHeader front.header) }
{
    let header = decode_header(&as_first(head))?;
    Some(Front {
        format: format_in(head),
        header,
    })
}

/// What the first bytes of a file say. Nothing comes back where no head of either format stands
/// there, with a gate behind it.
pub fn front_of(bytes: &[u8]) -> Option<Front>
    ensures header { header_in result ≡ front_header bytes.now }
    ensures format { format_in result ≡ format_of bytes.now }
    ensures fits { IfSome result (λ front. FitsHeader front.header) }
{
    let (head, rest) = bytes.split_first_chunk::<64>()?;
    if rest.is_empty() {
        return None;
    }
    front_of_head(head)
}

/// The head of a file in segments, with an open gate: the bytes of `encode_header`, but for the letter.
pub fn encode_head(header: &Header) -> [u8; 64]
    requires fits { FitsHeader header.now }
    ensures value { result ≡ spell_head header.now }
{
    let mut head = encode_header(header);
    head[PLACE] = SEGMENTED;
    head
}

/// Whether a head is one of a file in segments.
pub fn is_segment_head(head: &[u8; 64]) -> bool
    ensures value { result ≡ is_segment_head head.now }
{
    match format_in(head) {
        Format::One => false,
        Format::Two => decode_header(&as_first(head)).is_some(),
    }
}
