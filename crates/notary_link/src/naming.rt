//! The texts of names, as refusals have them.

ghost use Rattle.std.specs.Prelude.{◌≡◌, ◌++◌, OnOk};
ghost use Rattle.notary_link.specs.NameTexts.{part_text, name_text};

use crate::name::Name;
use byte_grammar::put_numbered;
use std::alloc::{AllocError, Global};

/// The part that is the whole of a tile.
const WHOLE: u8 = 255;

/// A part of a tile.
fn put_part(alloc: Global, out: &mut Vec<u8>, part: u8) -> Result<(), AllocError>
    ensures ok { OnOk result (out.new.items ≡ out.old.items ++ part_text part) }
{
    if part == WHOLE {
        out.extend_from_slice(b" whole")?;
    } else {
        put_numbered(alloc, out, b" bit ", u64::from(part))?;
    }
    Ok(())
}

/// Adds the text of a name.
#[tactic(auto, unfolding(crate::specs::NameTexts::name_text))]
pub fn put_name(alloc: Global, out: &mut Vec<u8>, name: Name) -> Result<(), AllocError>
    ensures ok { OnOk result (out.new.items ≡ out.old.items ++ name_text name) }
{
    match name {
        Name::Header => out.extend_from_slice(b"header")?,
        Name::Cum { tile } => put_numbered(alloc, out, b"cum ", u64::from(tile))?,
        Name::Tile { tile, part } => {
            put_numbered(alloc, out, b"tile ", u64::from(tile))?;
            put_part(alloc, out, part)?;
        }
        Name::Node { level, index } => {
            put_numbered(alloc, out, b"node ", u64::from(level))?;
            put_numbered(alloc, out, b" ", u64::from(index))?;
        }
        Name::Era { era } => put_numbered(alloc, out, b"era ", u64::from(era))?,
        Name::EraNode { era, level, index } => {
            put_numbered(alloc, out, b"node ", u64::from(era))?;
            put_numbered(alloc, out, b" ", u64::from(level))?;
            put_numbered(alloc, out, b" ", u64::from(index))?;
        }
    }
    Ok(())
}
