//! A count of steps that costs nothing: it takes no bytes, and counting runs no code.
//!
//! A step, in this product, is one transaction's spelling given to a link or to a granule's digest.
//! What hashes a transaction takes the count, and its clauses say how far the count rises. That is
//! how a bound on the work of a commit or of a question is said and proved.
//!
//! | Call | Clause `value` |
//! |---|---|
//! | `Steps::new` | the count is 0 |
//! | `tick` | the count is one more |
//!
//! Nothing else changes a count, and a running program can't read it. That a function ticks where
//! it should is said by that function's own clauses. Trusted are the ledger's tokens of `std`.
//!
//! A caller whose own caller counts nothing makes its count from a blank:
//!
//! ```rust
//! fn work<L: Ledger>(blank: Blank)
//!     requires { IsBlankOf L.name L.parts blank }
//! {
//!     let mut steps = Steps::<L>::new(blank);
//!     ..
//! }
//! ```
//!
//! It is called as `work::<Brand>(Blank::new(1))`, with `Brand` of `std::marker` and, in the calling
//! function's `Invariants.antt`, `ghosts-work a = record { name = a.blank.name; parts = a.blank.parts }`.
#![tactic(auto)]

ghost use Rattle.std.specs.Prelude.{◌≡◌, ◌+◌};
ghost use Rattle.step_count.specs.Blank.{IsBlankOf};

use std::marker::Model;
pub use std::sync::ledger::{Blank, Ledger};
use std::sync::ledger::{Book, Share};

/// How many steps were taken.
#[derive(Drop)]
pub struct Steps<L: Ledger> {
    book: Book<L>,
    share: Share<L>,
}

impl<L: Ledger> Model for Steps<L> {
    ghost use Rattle.std.specs.Prelude.{ℕ, ◌<◌};

    ghost Value = { ℕ };

    ghost view = { λ s. s.book.total };

    ghost invariant = { λ s. 0 < s.share.parts };
}

impl<L: Ledger> Steps<L> {
    /// No step yet.
    pub fn new(blank: Blank) -> Steps<L>
        requires blank { IsBlankOf L.name L.parts blank }
        ensures value { result ≡ 0 }
    {
        let (book, share) = blank.open::<L>();
        Steps { book, share }
    }

    /// One more step.
    pub fn tick(&mut self)
        ensures value { self.new ≡ self.old + 1 }
    {
        self.book.add(&mut self.share, 1);
    }
}

#[cfg(test)]
mod tests {
    use super::*;
    use std::marker::Brand;

    fn tick_thrice<L: Ledger>(blank: Blank) -> Steps<L>
        requires { IsBlankOf L.name L.parts blank }
        ensures { result ≡ 3 }
    {
        let mut steps = Steps::<L>::new(blank);
        steps.tick();
        steps.tick();
        steps.tick();
        steps
    }

    fn count_nothing<L: Ledger>(blank: Blank) -> usize
        requires { IsBlankOf L.name L.parts blank }
    {
        let _steps = tick_thrice::<L>(blank);
        std::mem::size_of::<Steps<L>>()
    }

    #[test]
    fn a_count_takes_no_bytes(rt: HostRuntime) {
        assert_eq!(rt; count_nothing::<Brand>(Blank::new(1)), 0);
    }
}
