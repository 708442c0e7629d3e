//! The state of a script between two steps, and a step.

ghost use Rattle.std.specs.Prelude.{◌≡◌, ◌++◌, ◌<◌, OnOk};
ghost use Rattle.workload_make.specs.Script.{word, behind, lines_text, step_stmts, after_step, before_steps};
ghost use Rattle.workload_make.specs.Progress.{progress_of};

use crate::change::{change_of, leaves_present, put_change, put_now};
use rand_core::utils::NextWord;
use rand_pcg::Lcg64Xsh32;
use std::alloc::{AllocError, Global};

/// A place for each key; that of 0 is never used.
const PLACES: usize = 1001;

/// The generator's next word.
#[tactic(auto, unfolding(crate::specs::Script::word, crate::specs::Script::behind))]
fn next_word(words: &mut Lcg64Xsh32) -> u32
    ensures value { result ≡ word words.old }
    ensures moved { words.new ≡ behind words.old }
{
    words.next_word()
}

/// The moment, the generator, and which keys are present.
#[derive(Drop)]
pub struct Maker {
    pub moment: u64,
    pub words: Lcg64Xsh32,
    pub present: [bool; PLACES],
}

impl Maker {
    /// Before the first step.
    pub fn new(last: u64, seed: u64) -> Maker
        ensures value { progress_of result ≡ before_steps last seed }
    {
        let present = [false; PLACES];
        Maker {
            moment: last,
            words: Lcg64Xsh32::new(seed, 0),
            present,
        }
    }

    /// Puts the two lines of a step.
    pub fn put_step(
        &mut self,
        alloc: Global,
        out: &mut Vec<u8>,
        width: u32,
    ) -> Result<(), AllocError>
        requires { 0 < width }
        ensures ok { OnOk result (out.new.items ≡ out.old.items ++ lines_text (step_stmts width (progress_of self.old))) }
        ensures after { OnOk result (progress_of self.new ≡ after_step width (progress_of self.old)) }
    {
        let pause = next_word(&mut self.words) % width;
        let key = 1 + next_word(&mut self.words) % 1000;
        let word = next_word(&mut self.words);
        self.moment = self.moment.saturating_add(u64::from(pause));
        put_now(alloc, out, self.moment)?;
        let place = key as usize;
        let change = change_of(self.present[place], word);
        put_change(alloc, out, change, key, word % 100_000)?;
        self.present[place] = leaves_present(change);
        Ok(())
    }
}
