//! What an evidence file says.

ghost use Rattle.std.specs.Prelude.{◌≡◌, [], ◌∷◌, ◌++◌, OnOk, OnErr};

use crate::entry::Entries;
use policy_eras::Era;
use std::alloc::{AllocError, Global};
use std::marker::Model;
use tuple_bytes::Header;

/// The header of a store, its eras but the first, and what is shown of its granules.
#[derive(Debug, Drop)]
pub struct Evidence {
    pub header: Header,
    pub eras: LaterEras,
    pub entries: Entries,
}

/// The eras of a store but the first, in order.
#[derive(Debug, Drop)]
pub struct LaterEras {
    items: Vec<Era>,
}

impl Model for LaterEras {
    ghost use Rattle.std.specs.Prelude.{List};
    ghost use Rattle.policy_eras.specs.declared.era.Era.{Era};

    ghost Value = { List Era };

    ghost view = { λ e. e.items.items };
}

impl LaterEras {
    /// No era, and no memory.
    pub fn new(alloc: Global) -> LaterEras
        ensures value { result ≡ [] }
    {
        LaterEras {
            items: Vec::new(alloc),
        }
    }

    pub fn push(&mut self, era: Era) -> Result<(), AllocError>
        ensures ok { OnOk result (self.new ≡ self.old ++ era ∷ []) }
        ensures err { OnErr result (self.new ≡ self.old) }
    {
        self.items.push(era)?;
        Ok(())
    }

    pub fn as_slice(&self) -> &[Era]
        ensures value { result.now ≡ self.now }
    {
        &self.items
    }
}
