//! A store and a notary in memory, with what a call of the program needs beside them.

use disk_model::{Disk, MemDisk};
use dragoon_app::dragoon;
use notary_book::BOOK_LIMITS;
use notary_link::{MemNotary, Notary};
use outside_io::{MemClock, MemSink, MemSource};
use std::alloc::{AllocError, Global};
use std::process::Abort;

fn owned(alloc: Global, texts: &[&str]) -> Result<Vec<String>, AllocError> {
    let mut words = Vec::new(alloc);
    for text in texts {
        words.push(String::from_str(alloc, text)?)?;
    }
    Ok(words)
}

/// How a call of these words ends, and what it writes. The clock gives these seconds, the last one for ever, and these
/// writes of the output fail.
pub fn ended<D: Disk, N: Notary>(
    alloc: Global,
    words: &[&str],
    store: &mut D,
    notary: &mut N,
    seconds: &[u64],
    input: &mut MemSource,
    failing: &[u64],
) -> Result<(u8, Vec<u8>), AllocError> {
    let (copy, target) = (&mut MemDisk::new(alloc), &mut MemDisk::new(alloc));
    beside(
        alloc, words, store, copy, target, notary, seconds, input, failing,
    )
}

/// The same with a copy and a target.
pub fn beside<D: Disk, P: Disk, T: Disk, N: Notary>(
    alloc: Global,
    words: &[&str],
    store: &mut D,
    copy: &mut P,
    target: &mut T,
    notary: &mut N,
    seconds: &[u64],
    input: &mut MemSource,
    failing: &[u64],
) -> Result<(u8, Vec<u8>), AllocError> {
    let words = owned(alloc, words)?;
    let mut clock = MemClock::new(seconds.to_vec(alloc)?);
    let mut out = MemSink::new(alloc, failing.to_vec(alloc)?);
    let status = dragoon(
        alloc, &words, store, copy, target, notary, &mut clock, input, &mut out,
    );
    Ok((status.code(), out.bytes().to_vec(alloc)?))
}

/// The same of words that stand between spaces, where no device fails.
pub fn audit<D: Disk, N: Notary>(
    alloc: Global,
    store: &mut D,
    notary: &mut N,
    text: &str,
    script: &str,
    seconds: &[u64],
) -> Result<(u8, Vec<u8>), AllocError> {
    let words: Vec<&str> = text.split(' ').collect(alloc)?;
    let mut input = MemSource::new(script.as_bytes().to_vec(alloc)?, 4096, Vec::new(alloc));
    ended(alloc, &words, store, notary, seconds, &mut input, &[])
}

/// A call has ended with this status and written this text.
pub fn tells(rt: &impl Abort, call: &str, told: &(u8, Vec<u8>), status: u8, text: &str) {
    let (ended, written) = told;
    assert_eq!(rt;
        (*ended, written.as_slice()),
        (status, text.as_bytes()),
        "{call}"
    );
}

/// An empty notary that holds as much as the program's.
pub fn notary(alloc: Global) -> MemNotary {
    MemNotary::new(alloc, BOOK_LIMITS)
}

/// The same beside a notary to which nothing was filed.
pub fn call<D: Disk>(
    alloc: Global,
    store: &mut D,
    text: &str,
    script: &str,
    seconds: &[u64],
) -> Result<(u8, Vec<u8>), AllocError> {
    audit(alloc, store, &mut notary(alloc), text, script, seconds)
}

/// A new store in memory, made by these words at second 0 of the clock.
pub fn made(alloc: Global, text: &str) -> Result<MemDisk, AllocError> {
    let mut store = MemDisk::new(alloc);
    let _ready = call(alloc, &mut store, text, "", &[0])?;
    Ok(store)
}

/// The lines of a drill that makes a store, fills it and files it, and what they are told.
#[derive(Drop)]
pub struct Filling {
    pub lines: String,
    pub told: String,
}

impl Filling {
    pub fn new(alloc: Global) -> Filling {
        Filling {
            lines: String::new(alloc),
            told: String::new(alloc),
        }
    }

    /// The words that make the store, its id as it is written, and the lines behind.
    pub fn parts(&self) -> (&str, &str, &str) {
        let (words, lines) = self.lines.split_once('\n').unwrap_or(("", ""));
        let (_, numbers) = words.split_once(' ').unwrap_or(("", ""));
        let (id, _) = numbers.split_once(' ').unwrap_or(("", ""));
        (words, id, lines)
    }

    /// Some lines more, and what they are told.
    fn add(&mut self, lines: &str, told: &str) -> Result<(), AllocError> {
        self.lines.push_str(lines)?;
        self.told.push_str(told)
    }
}

/// A store of id 7 that is made by these words, with a table, and a row in each of the first granules of a minute, the
/// first one at moment 0. So many tiles have ended then, and are filed.
pub fn rows(alloc: Global, words: &str, granules: u32, tiles: u32) -> Result<Filling, AllocError> {
    let mut filling = Filling::new(alloc);
    let lines = format!(in alloc; "{words}\ncreate t k int v int\n")?;
    filling.add(&lines, "ready 7\nok 1\n")?;
    for granule in 0..granules {
        let (moment, number) = (u64::from(granule) * 60, u64::from(granule) + 2);
        let lines = format!(in alloc; "now {moment}\ninsert t {granule} 0\n")?;
        filling.add(&lines, format!(in alloc; "ok\nok {number}\n")?.as_str())?;
    }
    let end = u64::from(granules) * 60;
    let lines = format!(in alloc; "now {end}\nnotarize\n")?;
    filling.add(&lines, format!(in alloc; "ok\nsealed {tiles}\n")?.as_str())?;
    Ok(filling)
}

/// 400 entries of a week in granules of an hour. The tiles that have ended are sealed on the fifth
/// day, when a validation finds them clean, and at the week's end.
pub fn week(alloc: Global) -> Result<Filling, AllocError> {
    let mut filling = Filling::new(alloc);
    filling.add("init 18 3600 3 ta\n", "ready 18\n")?;
    filling.add("create ledger id int name text cents int\n", "ok 1\n")?;
    for entry in 1u32..401 {
        let (moment, number) = ((entry - 1) * 1512, entry + 1);
        let lines = format!(in alloc; "now {moment}\ninsert ledger {entry} 'entry' 1000\n")?;
        filling.add(&lines, format!(in alloc; "ok\nok {number}\n")?.as_str())?;
        if entry == 286 {
            let lines = "now 432000\nnotarize\nvalidate\n";
            filling.add(lines, "ok\nsealed 15\nclean 15\n")?;
        }
    }
    filling.add("now 604800\nnotarize\n", "ok\nsealed 21\n")?;
    Ok(filling)
}

/// A store that is made and filled so.
pub fn filled<N: Notary>(
    alloc: Global,
    filling: &Filling,
    notary: &mut N,
) -> Result<MemDisk, AllocError> {
    let (words, id, lines) = filling.parts();
    let mut store = made(alloc, words)?;
    let run = format!(in alloc; "run {id} scripted")?;
    let _filled = audit(alloc, &mut store, notary, &run, lines, &[])?;
    Ok(store)
}

/// A store with a row in each of the first granules, whose tiles are sealed.
pub fn sealed<N: Notary>(
    alloc: Global,
    words: &str,
    granules: u32,
    notary: &mut N,
) -> Result<MemDisk, AllocError> {
    filled(alloc, &rows(alloc, words, granules, 0)?, notary)
}
