//! When a tile was changed, and how many events are drawn.

use crate::desk::{ID, seal};
use corruption_diagram::{Span, first_when, grid, when};
use notary_link::{AskFail, Mark, MemNotary, Notary, NotaryLimits, Outcome};
use std::alloc::Global;
use std::test::Fail;

/// Marks by their moment, how many tiles they are over, and what was found.
type Marks = &'static [(u64, u32, Outcome)];

/// A notary with the header and so many tiles, all filed at 480, and these marks.
fn notary_of(alloc: Global, tiles: u32, marks: Marks) -> Result<MemNotary, Fail> {
    let limits = NotaryLimits {
        seals: 100,
        marks: 100,
    };
    let mut notary = MemNotary::new(alloc, limits);
    for index in 0..tiles.min(99) + 1 {
        notary.file(ID, index, 480, &[seal()])?;
    }
    for (moment, tiles, outcome) in marks {
        let mark = Mark {
            moment: *moment,
            tiles: *tiles,
            outcome: *outcome,
        };
        notary.mark(ID, mark)?;
    }
    Ok(notary)
}

const CLEAN: Outcome = Outcome::Clean;

const OTHER: Outcome = Outcome::HeaderAltered;

const TILE_2: Outcome = Outcome::Altered { first_bad: 2 };

const TWICE: Marks = &[(490, 3, CLEAN), (500, 4, TILE_2)];

const THRICE: Marks = &[(490, 4, CLEAN), (495, 1, CLEAN), (500, 2, CLEAN)];

/// Of four tiles, as of 510: the marks, a tile, from when it was changed, and until when for the first time.
const SPANS: [(Marks, u32, u64, u64); 13] = [
    (&[], 2, 480, 510),
    (TWICE, 0, 490, 510),
    (TWICE, 2, 490, 500),
    (TWICE, 3, 480, 510),
    // a clean mark behind the altered one
    (&[(485, 4, TILE_2), (490, 4, CLEAN)], 2, 490, 510),
    // altered marks before it and behind it
    (
        &[
            (485, 4, TILE_2),
            (490, 4, CLEAN),
            (495, 4, Outcome::Altered { first_bad: 1 }),
            (500, 4, TILE_2),
            (505, 4, TILE_2),
        ],
        2,
        490,
        500,
    ),
    // neither clears nor begins a span
    (&[(490, 4, OTHER)], 2, 480, 510),
    (&[(490, 4, CLEAN), (495, 4, OTHER)], 2, 490, 510),
    // before the tile was filed
    (&[(470, 4, CLEAN)], 2, 480, 510),
    // each tile by the last clean mark over it
    (THRICE, 0, 500, 510),
    (THRICE, 1, 500, 510),
    (THRICE, 2, 490, 510),
    // the last one, though its moment is not the latest
    (&[(500, 4, CLEAN), (490, 4, CLEAN)], 2, 490, 510),
];

#[test]
fn spans_begin_at_clean_marks_and_end_at_altered_ones(rt: HostRuntime) -> Result<(), Fail> {
    let alloc = rt.alloc();
    for (marks, tile, from, until) in SPANS {
        let mut notary = notary_of(alloc, 4, marks)?;
        let first = first_when(&mut notary, ID, tile, 510);
        assert_eq!(rt; first, Ok(Span { from, to: until }));
        // each of the two first questions is told to have failed, and then there is an answer
        notary.failing([1, 3].to_vec(alloc)?, Vec::new(alloc));
        for answer in [
            Err(AskFail::NotaryFault),
            Err(AskFail::NotaryFault),
            Ok(Span { from, to: 510 }),
        ] {
            assert_eq!(rt; when(alloc, &mut notary, ID, tile, 510), answer);
        }
    }
    Ok(())
}

/// How many tiles there are, the marks, and whether there is a diagram.
const DRAWN: [(u32, Marks, bool); 5] = [
    (64, &[], true),
    (65, &[], false),
    (63, &[(490, 4, CLEAN)], true),
    (64, &[(490, 4, CLEAN)], false),
    (
        62,
        &[(490, 4, CLEAN), (495, 4, OTHER), (500, 4, CLEAN)],
        false,
    ),
];

#[test]
fn at_most_64_events_are_drawn(rt: HostRuntime) -> Result<(), Fail> {
    let alloc = rt.alloc();
    for (tiles, marks, drawn) in DRAWN {
        let mut notary = notary_of(alloc, tiles, marks)?;
        let bad = vec![in alloc; false; tiles as usize]?;
        let grid = grid(alloc, &mut notary, ID, tiles, &bad, 510)?;
        assert_eq!(rt; grid.is_some(), drawn);
    }
    Ok(())
}
