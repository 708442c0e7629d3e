//! The cumulative chain: one value over all transactions so far, each linked to the value before it.
//!
//! To change, drop or move a transaction changes every value from there on, unless two different
//! inputs share a SHA-256 digest: that law is `links_tell_apart` of `digest_model`.
//!
//! | Call | Formula |
//! |---|---|
//! | `seed` | `SHA-256(00 | header fields)`, the value of no transaction |
//! | `link` | `SHA-256(01 | previous | spelling)`, the value after one more transaction |
//! | `links_at_ends` | for each of some ascending ends, the value over the transactions of all granules below it, in canonical order |
//! | `links_at_tiles` | for each tile, the value over the transactions of all granules up to its end, in canonical order |
//! | `header_digest` | `SHA-256(05 | header fields)`, by which a header is known |
//! | `era_digest` | `SHA-256(06 | number | tile | first granule | exponent | algorithms)`, by which an era behind the first is known |
//!
//! The header fields are 22 bytes: id, epoch, width, exponent and algorithms. Number, tile and granule of
//! an era have four bytes each, exponent and algorithms one.
//!
//! Each call gives exactly the digest of `digest_model` (clause `value`) and takes no memory. A link
//! raises the count of steps by one (clause `steps`); no transaction is linked without it.
//! Trusted is the statement of SHA-256 in the kit's `sha2`; tests compare with another program.
//!
//! ```rust
//! let mut value = seed(&header);
//! for spelling in spellings {
//!     value = link(&value, spelling, &mut steps);
//! }
//! ```
#![tactic(auto)]

ghost use Rattle.std.specs.Prelude.{◌≡◌, ◌+◌, ◌∷◌};
ghost use Rattle.sha2.specs.Sha256.{sha256};
ghost use Rattle.digest_model.specs.Digests.{seed, header_digest, era_input, next_link};
ghost use Rattle.policy_eras.specs.Policy.{as_era};

mod tiles;

use policy_eras::Era;
use sha2::{Digest, Sha256};
use step_count::{Ledger, Steps};
pub use tiles::{links_at_ends, links_at_tiles};
use tuple_bytes::{Header, header_fields};

/// `SHA-256(tag | bytes)`.
fn tagged_digest(tag: u8, bytes: &[u8]) -> [u8; 32]
    ensures { result ≡ sha256 (tag ∷ bytes.now) }
{
    let mut hasher = Sha256::new();
    hasher.update([tag]);
    hasher.update(bytes);
    hasher.finalize()
}

/// `SHA-256(00 | header fields)`: the value of no transaction.
pub fn seed(header: &Header) -> [u8; 32]
    ensures value { result ≡ seed header.now }
{
    tagged_digest(0, &header_fields(header))
}

/// `SHA-256(05 | header fields)`: what a notary holds of the header.
pub fn header_digest(header: &Header) -> [u8; 32]
    ensures value { result ≡ header_digest header.now }
{
    tagged_digest(5, &header_fields(header))
}

/// `SHA-256(06 | number | tile | granule | k | algs)`: what a notary holds of an era behind the first.
pub fn era_digest(number: u32, era: &Era) -> [u8; 32]
    ensures value { result ≡ sha256 (era_input number (as_era era.now) era.now.granule) }
{
    let mut hasher = Sha256::new();
    hasher.update([6u8]);
    hasher.update(number.to_be_bytes());
    hasher.update(era.tile.to_be_bytes());
    hasher.update(era.granule.to_be_bytes());
    hasher.update([era.k, era.algs]);
    hasher.finalize()
}

/// `SHA-256(01 | previous | txn_bytes)`: the value after one more transaction.
pub fn link<L: Ledger>(previous: &[u8; 32], txn_bytes: &[u8], steps: &mut Steps<L>) -> [u8; 32]
    ensures value { result ≡ next_link previous.now txn_bytes.now }
    ensures steps { steps.new ≡ steps.old + 1 }
{
    let mut hasher = Sha256::new();
    hasher.update([1u8]);
    hasher.update(previous);
    hasher.update(txn_bytes);
    steps.tick();
    hasher.finalize()
}
