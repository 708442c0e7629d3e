//! Going over the roots, from the highest binary digit down.

ghost use Rattle.std.specs.Iterator.{YieldsFirst, item_count};

use std::marker::Model;

/// The roots over a number of granules, from the left.
#[derive(Drop)]
pub struct Roots {
    pub(crate) granules: u32,
    pub(crate) level: u8,
}

impl Model for Roots {
    ghost use Rattle.std.specs.Prelude.{List, ℕ, ◌≤◌, ◌<◌, ◌^◌};
    ghost use Rattle.a3d_tree.specs.Left.{roots_left};

    ghost Value = { List (ℕ × ℕ) };

    ghost view = { λ r. roots_left r.granules r.level };

    ghost invariant = { λ r. (r.level ≤ 32) × (r.granules < 2 ^ 32) };
}

impl Iterator for Roots {
    type Item = (u8, u32);

    ghost next_gives = { YieldsFirst (λ rest. rest) };

    ghost remaining = { item_count (λ rest. rest) };

    fn next(&mut self) -> Option<(u8, u32)> {
        let granules = u64::from(self.granules);
        while self.level > 0 {
            self.level -= 1;
            let level = self.level;
            if (granules >> level) & 1 == 1 {
                return Some((level, (granules >> (level + 1)) as u32 * 2));
            }
        }
        None
    }
}
