//! The digest of a granule, fed spelling by spelling.

ghost use Rattle.std.specs.Prelude.{◌≡◌, ◌+◌, length};
ghost use Rattle.std.specs.List.{All};
ghost use Rattle.digest_model.specs.Digests.{granule_over};
ghost use Rattle.digest_model.specs.Plain.{IsShort};

use sha2::{Digest, Sha256};
use step_count::{Ledger, Steps};
use tuple_bytes::Payloads;

/// The digest of a granule in progress.
#[derive(Drop)]
pub struct GranuleHash {
    hasher: Sha256,
}

impl GranuleHash {
    ghost use Rattle.std.specs.Prelude.{ℕ, List, [], ◌∷◌, ◌++◌};
    ghost use Rattle.tile_chains.specs.Hashed.{HasHashed};

    /// The hash of a granule's number, and no spelling yet.
    pub fn new(granule: u32) -> GranuleHash
        ensures hashed { HasHashed result granule [] }
    {
        let mut hasher = Sha256::new();
        hasher.update([2u8]);
        hasher.update(granule.to_be_bytes());
        GranuleHash { hasher }
    }

    /// Adds the spelling of the granule's next transaction.
    pub fn add<L: Ledger>(&mut self, spelling: &[u8], steps: &mut Steps<L>)
        requires { IsShort spelling.now }
        ensures hashed { (g : ℕ) (ts : List (List ℕ)) → HasHashed self.old g ts → HasHashed self.new g (ts ++ spelling.now ∷ []) }
        ensures steps { steps.new ≡ steps.old + 1 }
    {
        self.hasher.update((spelling.len() as u32).to_be_bytes());
        self.hasher.update(spelling);
        steps.tick();
    }

    /// The digest of the granule.
    pub fn finish(self) -> [u8; 32]
        ensures value { (g : ℕ) (ts : List (List ℕ)) → HasHashed self g ts → result ≡ granule_over g ts }
    {
        self.hasher.finalize()
    }
}

/// `SHA-256(02 | granule | for each transaction: length, spelling)`.
pub fn granule_digest<L: Ledger>(granule: u32, txns: &Payloads, steps: &mut Steps<L>) -> [u8; 32]
    requires { All IsShort txns.now }
    ensures value { result ≡ granule_over granule txns.now }
    ensures steps { steps.new ≡ steps.old + length txns.now }
{
    let mut hash = GranuleHash::new(granule);
    for spelling in txns.as_slice() {
        hash.add(spelling.as_slice(), steps);
    }
    hash.finish()
}
