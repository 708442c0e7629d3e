//! The clean marks that count.

ghost use Rattle.std.specs.Prelude.{◌≡◌, ◌<◌, ◌≤◌, ◌++◌, ◌∷◌, [], All, List, take, drop, length, IfErr, IfOk, OnOk};
ghost use Rattle.outside_words.specs.Faults.{HasCause};
ghost use Rattle.outside_words.specs.Told.{WhereTold};
ghost use Rattle.notary_link.specs.declared.fail.AskFail.TheVariants.{NotaryFault};
ghost use Rattle.notary_link.specs.declared.mark.Mark.{Mark};
ghost use Rattle.notary_link.specs.Fails.{ask_in_doubt};
ghost use Rattle.notary_link.specs.Notary.{Unchanged, GoesOn, IsCounted};
ghost use Rattle.audit_model.specs.Spans.{is_clean};
ghost use Rattle.corruption_diagram.specs.Spans.{IsReadFail};
ghost use Rattle.corruption_diagram.specs.CleanMarks.{last_over, StandFor, Narrow};

use notary_link::{AskFail, Mark, Notary, Outcome};
use std::alloc::{AllocError, Global};
use std::marker::Model;

/// A clean mark: its moment, and how many tiles it was over.
#[derive(Clone, Copy, Debug, PartialEq, Eq)]
pub struct CleanMark {
    pub moment: u64,
    pub tiles: u32,
}

/// The clean marks that are the last ones over some tile, in the order of marking. A later one is over
/// fewer tiles, since it counts for all that it is over.
#[derive(Drop)]
pub struct CleanMarks {
    marks: Vec<CleanMark>,
}

impl Model for CleanMarks {
    ghost use Rattle.std.specs.Prelude.{List};
    ghost use Rattle.corruption_diagram.specs.declared.clean_marks.CleanMark.{CleanMark};
    ghost use Rattle.corruption_diagram.specs.CleanMarks.{Narrow};

    ghost Value = { List CleanMark };

    ghost view = { λ c. c.marks.items };

    ghost invariant = { λ c. Narrow c.marks.items };
}

impl CleanMarks {
    /// Reads all marks of an id once.
    pub fn read<N: Notary>(alloc: Global, notary: &mut N, id: u64) -> Result<CleanMarks, AskFail>
        ensures value { WhereTold (N.state notary.old).lists (N.state notary.new).lists (λ before after.
            IfOk result (StandFor (before.marks id))) }
        ensures only { IfErr result IsReadFail }
        ensures same { Unchanged (N.state notary.old) (N.state notary.new) }
        ensures asked { (N.state notary.new).asked ≡ (N.state notary.old).asked }
        ensures frame { GoesOn (N.state notary.old) (N.state notary.new) }
        ensures cause { HasCause NotaryFault (N.state notary.old).faults (N.state notary.new).faults result }
        ensures counted { IsCounted ask_in_doubt (N.state notary.old) (N.state notary.new) result }
    {
        let mut marks = Vec::new(alloc);
        for place in 0..u32::MAX {
            match notary.mark_at(id, place)? {
                Some(mark) => add(&mut marks, mark)?,
                None => return Ok(CleanMarks { marks }),
            }
        }
        Ok(CleanMarks { marks })
    }

    /// The moment of the last one over a tile.
    pub fn last_over(&self, tile: u32) -> Option<u64>
        ensures value { result ≡ last_over self.now tile }
    {
        let count = count_over(&self.marks, tile);
        if count == 0 {
            None
        } else {
            Some(self.marks[count - 1].moment)
        }
    }
}

/// Whether nothing was found.
fn is_clean(outcome: Outcome) -> bool
    ensures value { result ≡ is_clean outcome }
{
    matches!(outcome, Outcome::Clean)
}

/// A mark more. A clean one counts for all that it is over, and those over no more count no longer.
fn add(clean: &mut Vec<CleanMark>, mark: Mark) -> Result<(), AllocError>
    requires narrow { Narrow clean.old.items }
    ensures narrow { OnOk result (Narrow clean.new.items) }
    ensures value { OnOk result ((marks : List Mark) → StandFor marks clean.old.items → StandFor (marks ++ mark ∷ []) clean.new.items) }
{
    if is_clean(mark.outcome) {
        let kept = count_over(clean, mark.tiles);
        clean.truncate(kept);
        clean.push(CleanMark {
            moment: mark.moment,
            tiles: mark.tiles,
        })?;
    }
    Ok(())
}

/// How many are over more than so many tiles: these come first.
fn count_over(clean: &[CleanMark], tiles: u32) -> usize
    requires narrow { Narrow clean.now }
    ensures within { result ≤ length clean.now }
    ensures over { All (λ c. tiles < c.tiles) (take result clean.now) }
    ensures rest { All (λ c. c.tiles ≤ tiles) (drop result clean.now) }
{
    clean.partition_point(|mark| mark.tiles > tiles)
}
