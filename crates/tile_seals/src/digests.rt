//! Lists of digests.

ghost use Rattle.std.specs.Prelude.{◌≡◌, [], ◌∷◌, ◌++◌, OnOk};

use std::alloc::{AllocError, Global};
use std::marker::Model;

/// Digests by their place.
#[derive(Drop)]
pub struct Digests {
    digests: Vec<[u8; 32]>,
}

impl Model for Digests {
    ghost use Rattle.std.specs.Prelude.{ℕ, List};

    ghost Value = { List (List ℕ) };

    ghost view = { λ d. d.digests.items };
}

impl Digests {
    /// None, and no memory.
    pub fn new(alloc: Global) -> Digests
        ensures value { result ≡ [] }
    {
        Digests {
            digests: Vec::new(alloc),
        }
    }

    pub fn push(&mut self, digest: [u8; 32]) -> Result<(), AllocError>
        ensures ok { OnOk result (self.new ≡ self.old ++ digest ∷ []) }
    {
        self.digests.push(digest)?;
        Ok(())
    }

    /// Adds these behind the others.
    pub fn extend(&mut self, more: &[[u8; 32]]) -> Result<(), AllocError>
        ensures ok { OnOk result (self.new ≡ self.old ++ more.now) }
    {
        self.digests.extend_from_slice(more)
    }

    pub fn as_slice(&self) -> &[[u8; 32]]
        ensures value { result.now ≡ self.now }
    {
        &self.digests
    }
}
