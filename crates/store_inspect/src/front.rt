//! A file without a header.

ghost use Rattle.std.specs.Prelude.{◌≡◌, ◌≤◌, length};
ghost use Rattle.txn_journal.specs.Create.{is_free};
ghost use Rattle.store_inspect.specs.Front.{may_begin, wrong_byte, headless};

use file_findings::Finding;
use history_model::front_of;
use tuple_bytes::{Header, encode_header};

/// The value of an open gate.
const OPEN: u8 = 0xA7;

/// Whether some header of either format begins with these bytes.
fn may_begin(front: &[u8]) -> bool
    requires short { length front.now ≤ 64 }
    ensures value { result ≡ may_begin front.now }
{
    let least = Header {
        id: 0,
        epoch: 0,
        width: 1,
        k: 0,
        algs: 0,
    };
    let mut bytes = [0; 65];
    bytes[..64].copy_from_slice(&encode_header(&least));
    bytes[..front.len()].copy_from_slice(front);
    front_of(&bytes).is_some()
}

/// The first byte with which no header begins, or how many there are.
fn wrong_byte(front: &[u8]) -> usize
    requires short { length front.now ≤ 64 }
    ensures value { result ≡ wrong_byte front.now }
{
    for i in 0..front.len() {
        if !may_begin(&front[..i + 1]) {
            return i;
        }
    }
    front.len()
}

/// Whether a store may be made on a device of these bytes.
fn is_free(bytes: &[u8]) -> bool
    ensures value { result ≡ is_free bytes.now }
{
    bytes.len() <= 1 || bytes.len() <= 65 && bytes[0] != OPEN
}

/// What is odd about bytes without a header.
pub(crate) fn headless(bytes: &[u8]) -> Finding
    ensures value { result ≡ headless bytes.now }
{
    if is_free(bytes) {
        return Finding::NoStore;
    }
    let byte = wrong_byte(&bytes[..bytes.len().min(64)]) as u64;
    Finding::DamagedFront(byte)
}
