//! Stories: what is done to a store and a notary in memory, step by step, and what each step is told.
//!
//! A story is a text. Its first line says what it shows, and a `$` begins each of its steps. A blank line parts two
//! stories, and `; ` two lines in one. `[3*ok; ]` is written three times, and in `[2-4*ok #; ]` the `#` is each number from
//! 2 to 4. `&` stands for the tail, and `~` leaves the last line without an end.
//!
//! | Step | What it says |
//! |---|---|
//! | `$ WORDS @ SECONDS ! WRITE = STATUS TEXT` | a call of these words, what the clock gives, which write of the output fails, the status, and what is written |
//! | `< LINES`, `> LINES` | behind it: its input, which comes three bytes at a time, and what is written besides |
//! | `$ given HEX` | these bytes are the input of calls without lines |
//! | `$ sealed GRANULES TILES WORDS` | the store has id 7, is made by these words, and has a row in each granule; so many tiles are sealed |
//! | `$ week` | the store is the ledger of a week |
//! | `$ bytes HEX`, `$ alter PLACE HEX`, `$ cut LENGTH` | the store has these bytes; has others from a place on; ends there |
//! | `$ damaged LINES` | a copy of the store is altered and cut by these lines |
//! | `? SECOND LINE > TEXT` | behind it: what this line is told at a second, in a drill that altered and cut a store of its own. A command that asks the same tells an alteration, by the same text; and an analysis is a line of a run, too |
//! | `$ tail` | the lines behind it are the tail |
//! | `$ stored HEX`, `$ holds BATCHES MARKS` | the store has these bytes; so many batches are filed under id 7, and so many marks noted |
//! | `$ notary SEALS MARKS` | the notary is an empty one with so much room |
//! | `$ stranger` | a seal of another tile is filed under id 7, as batch 1 |
//! | `$ breaks READ CHANGE`, `$ hinders READ CHANGE`, `$ fails QUESTION CHANGE` | these calls of the disk, of the target, or of the notary, fail from now on |
//! | `$ copied` | the copy has the bytes that the store has now, and none at first |
//! | `$ written HEX`, `$ handed` | the target has these bytes; what it has is the input of calls without lines |
//! | `$ target HEX`, `$ moved` | the target has these bytes, and none at first; it is the store from now on, and another one is empty |
//! | `$ crash CHOICE` | the disk crashes, and leaves the image of this choice |

use crate::desk::{Filling, audit, beside, call, filled, notary, rows, tells, week};
use disk_model::MemDisk;
use notary_link::{MemNotary, Name, Notary, NotaryLimits, Seal};
use outside_io::MemSource;
use std::alloc::Global;
use std::process::Abort;
use std::test::Fail;

/// The first step of most stories.
pub const NEW: &str = "init 7 60 3 m @ 0 = 0 ready 7";

/// Where a story stands.
#[derive(Drop)]
struct Scene {
    store: MemDisk,
    copy: MemDisk,
    target: MemDisk,
    filed: MemNotary,
    given: Vec<u8>,
    filling: Filling,
    tail: String,
}

/// The numbers of a text, parted by spaces.
fn numbers(alloc: Global, text: &str) -> Result<Vec<u64>, Fail> {
    let mut numbers = Vec::new(alloc);
    if !text.is_empty() {
        for number in text.split(' ') {
            numbers.push(number.parse::<u64>()?)?;
        }
    }
    Ok(numbers)
}

/// A text in which each `[N*PIECE]` is written so many times, and each `[A-B*PIECE]` for each of these numbers.
fn repeated(alloc: Global, text: &str) -> Result<String, Fail> {
    let mut whole = String::new(alloc);
    for part in text.split('[') {
        let Some((bracket, behind)) = part.split_once(']') else {
            whole.push_str(part)?;
            continue;
        };
        let (times, piece) = bracket.split_once('*').ok_or("no number")?;
        let (first, last) = times.split_once('-').unwrap_or(("1", times));
        for number in first.parse::<u32>()?..=last.parse::<u32>()? {
            push_numbered(alloc, &mut whole, piece, number)?;
        }
        whole.push_str(behind)?;
    }
    Ok(whole)
}

/// The piece with this number in the place of each `#`.
fn push_numbered(alloc: Global, whole: &mut String, piece: &str, number: u32) -> Result<(), Fail> {
    let digits = format!(in alloc; "{number}")?;
    let mut parts = piece.split('#');
    whole.push_str(parts.next().unwrap_or(""))?;
    for part in parts {
        whole.push_str(&digits)?;
        whole.push_str(part)?;
    }
    Ok(())
}

/// The lines of a text, each with its end.
fn lines_of(alloc: Global, text: &str, tail: &str) -> Result<String, Fail> {
    let mut lines = String::new(alloc);
    let text = repeated(alloc, text)?;
    if text.is_empty() {
        return Ok(lines);
    }
    for line in text.split("; ") {
        if line == "&" {
            lines.push_str(tail)?;
        } else if let Some(front) = line.strip_suffix('~') {
            lines.push_str(front)?;
        } else {
            lines.push_str(line)?;
            lines.push('\n')?;
        }
    }
    Ok(lines)
}

/// All lines that stand in a step behind this sign.
pub fn behind(alloc: Global, step: &str, sign: &str, tail: &str) -> Result<String, Fail> {
    let mut lines = String::new(alloc);
    for line in step.lines() {
        if let Some(text) = line.strip_prefix(sign) {
            lines.push_str(&lines_of(alloc, text, tail)?)?;
        }
    }
    Ok(lines)
}

/// The bytes of a text of digits and spaces.
fn bytes_of(alloc: Global, text: &str) -> Result<Vec<u8>, Fail> {
    let text = repeated(alloc, text)?;
    let mut digits = String::new(alloc);
    for part in text.split(' ') {
        digits.push_str(part)?;
    }
    Ok(hex::decode(alloc, digits.as_str())?)
}

/// A copy of the store behind a line that alters it or cuts it.
fn changed(alloc: Global, store: &MemDisk, line: &str) -> Result<MemDisk, Fail> {
    let mut bytes = store.bytes().to_vec(alloc)?;
    if let Some(length) = line.strip_prefix("cut ") {
        bytes.truncate(length.parse::<usize>()?);
    } else {
        let (_, alteration) = line.split_once(' ').ok_or("no place")?;
        let (place, others) = alteration.split_once(' ').ok_or("no bytes")?;
        let others = bytes_of(alloc, others)?;
        let place = place.parse::<usize>()?;
        for (byte, other) in bytes.iter_mut().skip(place).zip(others.iter()) {
            *byte = *other;
        }
    }
    Ok(MemDisk::holding(alloc, bytes))
}

/// A call, and how it ends.
fn called(rt: &impl Abort, alloc: Global, scene: &mut Scene, step: &str) -> Result<(), Fail> {
    let (head, _) = step.split_once('\n').unwrap_or((step, ""));
    let (given, answer) = head.split_once(" = ").ok_or("no status")?;
    let (status, text) = answer.split_once(' ').unwrap_or((answer, ""));
    let (given, write) = given.split_once(" ! ").unwrap_or((given, ""));
    let (words, clock) = given.split_once(" @ ").unwrap_or((given, ""));
    let words: Vec<&str> = words.split(' ').collect(alloc)?;
    let (seconds, failing) = (numbers(alloc, clock)?, numbers(alloc, write)?);
    let lines = behind(alloc, step, "< ", "")?;
    let given = if lines.is_empty() {
        scene.given.to_vec(alloc)?
    } else {
        lines.into_bytes()
    };
    let mut input = MemSource::new(given, 3, Vec::new(alloc));
    let (store, copy, target) = (&mut scene.store, &mut scene.copy, &mut scene.target);
    let filed = &mut scene.filed;
    let told = beside(
        alloc, &words, store, copy, target, filed, &seconds, &mut input, &failing,
    )?;
    let mut wanted = lines_of(alloc, text, "")?;
    wanted.push_str(&behind(alloc, step, "> ", &scene.tail)?)?;
    tells(rt, step, &told, status.parse::<u8>()?, &wanted);
    Ok(())
}

/// What the line asks of a store that was altered, by a command; and by a run, if it is an analysis.
fn asked(
    rt: &impl Abort,
    alloc: Global,
    store: &mut MemDisk,
    scene: &mut Scene,
    (second, line): (&str, &str),
    wanted: &str,
) -> Result<(), Fail> {
    let (_, id, _) = scene.filling.parts();
    let (verb, algorithm) = line.split_once(' ').unwrap_or((line, ""));
    let words = format!(in alloc; "{verb} {id} {algorithm}")?;
    let (filed, seconds) = (&mut scene.filed, numbers(alloc, second)?);
    let told = audit(alloc, store, filed, words.trim(), "", &seconds)?;
    tells(rt, &words, &told, 1, wanted);
    if !algorithm.is_empty() {
        let run = format!(in alloc; "run {id}")?;
        let told = audit(alloc, store, filed, &run, line, &seconds)?;
        tells(rt, line, &told, 0, wanted);
    }
    Ok(())
}

/// What is told of a copy of the store that is altered and cut, and by a drill that does the same.
fn damaged(rt: &impl Abort, alloc: Global, scene: &mut Scene, step: &str) -> Result<(), Fail> {
    let mut store = MemDisk::holding(alloc, scene.store.bytes().to_vec(alloc)?);
    let mut lines = String::from_str(alloc, &scene.filling.lines)?;
    let mut told = String::from_str(alloc, &scene.filling.told)?;
    for part in step.lines() {
        if let Some(changes) = part.strip_prefix("damaged ") {
            for change in changes.split("; ") {
                store = changed(alloc, &store, change)?;
                lines.push_str(format!(in alloc; "{change}\n")?.as_str())?;
                told.push_str("ok\n")?;
            }
        } else if let Some(question) = part.strip_prefix("? ") {
            let (question, text) = question.split_once(" > ").ok_or("no text")?;
            let (second, line) = question.split_once(' ').ok_or("no second")?;
            let text = lines_of(alloc, text, &scene.tail)?;
            asked(rt, alloc, &mut store, scene, (second, line), &text)?;
            lines.push_str(format!(in alloc; "now {second}\n{line}\n")?.as_str())?;
            told.push_str(format!(in alloc; "ok\n{text}")?.as_str())?;
        }
    }
    let drilled = call(alloc, &mut MemDisk::new(alloc), "drill", &lines, &[])?;
    tells(rt, step, &drilled, 0, &told);
    Ok(())
}

/// A seal of another tile is filed as the first batch.
fn stranger(filed: &mut MemNotary) -> Result<(), Fail> {
    let seal = Seal {
        name: Name::Cum { tile: 5 },
        digest: [0; 32],
    };
    filed.file(7, 1, 0, &[seal])?;
    Ok(())
}

/// The store is made and filled.
fn fill(alloc: Global, scene: &mut Scene, filling: Filling) -> Result<(), Fail> {
    scene.store = filled(alloc, &filling, &mut scene.filed)?;
    scene.filling = filling;
    Ok(())
}

/// A step of two numbers.
fn counted(
    rt: &impl Abort,
    alloc: Global,
    scene: &mut Scene,
    verb: &str,
    (first, second): (u32, u32),
) -> Result<(), Fail> {
    let one = [u64::from(first)].to_vec(alloc)?;
    let other = [u64::from(second)].to_vec(alloc)?;
    match verb {
        "notary" => {
            let limits = NotaryLimits {
                seals: u64::from(first),
                marks: second,
            };
            scene.filed = MemNotary::new(alloc, limits);
        }
        "breaks" => scene.store.failing(one, other),
        "hinders" => scene.target.failing(one, other),
        "fails" => scene.filed.failing(one, other),
        _ => {
            assert_eq!(rt; scene.filed.count(7)?, first);
            assert!(rt; scene.filed.mark_at(7, second)?.is_none());
        }
    }
    Ok(())
}

/// The store after a step that makes it, and the disks beside it.
fn put(alloc: Global, scene: &mut Scene, verb: &str, rest: &str) -> Result<(), Fail> {
    match verb {
        "sealed" => {
            let (granules, rest) = rest.split_once(' ').ok_or("no tiles")?;
            let (tiles, words) = rest.split_once(' ').ok_or("no words")?;
            let (granules, tiles) = (granules.parse::<u32>()?, tiles.parse::<u32>()?);
            fill(alloc, scene, rows(alloc, words, granules, tiles)?)
        }
        "week" => fill(alloc, scene, week(alloc)?),
        "target" => {
            scene.target = MemDisk::holding(alloc, bytes_of(alloc, rest)?);
            Ok(())
        }
        "copied" => {
            scene.copy = MemDisk::holding(alloc, scene.store.bytes().to_vec(alloc)?);
            Ok(())
        }
        "moved" => {
            scene.store = MemDisk::holding(alloc, scene.target.bytes().to_vec(alloc)?);
            scene.target = MemDisk::new(alloc);
            Ok(())
        }
        _ => {
            scene.store = MemDisk::holding(alloc, bytes_of(alloc, rest)?);
            Ok(())
        }
    }
}

fn take(rt: &impl Abort, alloc: Global, scene: &mut Scene, step: &str) -> Result<(), Fail> {
    let (head, _) = step.split_once('\n').unwrap_or((step, ""));
    let (verb, rest) = head.split_once(' ').unwrap_or((head, ""));
    match verb {
        "notary" | "breaks" | "hinders" | "fails" | "holds" => {
            let (first, second) = rest.split_once(' ').ok_or("one number")?;
            let numbers = (first.parse::<u32>()?, second.parse::<u32>()?);
            counted(rt, alloc, scene, verb, numbers)?;
        }
        "sealed" | "week" | "bytes" | "target" | "copied" | "moved" => put(
            alloc, scene, verb, rest,
        )?,
        "alter" | "cut" => scene.store = changed(alloc, &scene.store, head)?,
        "crash" => scene.store.crash(rest.parse::<u64>()?)?,
        "stored" => {
            let wanted = bytes_of(alloc, rest)?;
            assert_eq!(rt; scene.store.bytes(), wanted.as_slice());
        }
        "written" => {
            let wanted = bytes_of(alloc, rest)?;
            assert_eq!(rt; scene.target.bytes(), wanted.as_slice());
        }
        "damaged" => damaged(rt, alloc, scene, step)?,
        "tail" => scene.tail = behind(alloc, step, "> ", "")?,
        "stranger" => stranger(&mut scene.filed)?,
        "given" => scene.given = bytes_of(alloc, rest)?,
        "handed" => scene.given = scene.target.bytes().to_vec(alloc)?,
        _ => called(rt, alloc, scene, step)?,
    }
    Ok(())
}

/// Tells stories. At the beginning of each there is an empty store and an empty notary, and then comes this step.
pub fn tell(rt: &impl Abort, alloc: Global, first: &str, stories: &str) -> Result<(), Fail> {
    for story in stories.split("\n\n") {
        let (_, steps) = story.split_once("\n$ ").ok_or("no step")?;
        let mut scene = Scene {
            store: MemDisk::new(alloc),
            copy: MemDisk::new(alloc),
            target: MemDisk::new(alloc),
            filed: notary(alloc),
            given: Vec::new(alloc),
            filling: Filling::new(alloc),
            tail: String::new(alloc),
        };
        if !first.is_empty() {
            take(rt, alloc, &mut scene, first)?;
        }
        for step in steps.split("\n$ ") {
            take(rt, alloc, &mut scene, step)?;
        }
    }
    Ok(())
}
