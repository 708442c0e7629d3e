//! The program: it makes the devices that its leading words name, makes the one call of `dragoon_app` with the words after
//! them, and ends with the number of the status.
//!
//! | Beside the call | Module or crate |
//! |---|---|
//! | which file each word names | `names` |
//! | which of them a command changes, and which it only reads | `uses` |
//! | its files and its notaries | `call_devices` |
//! | what a person is told at its end | `call_notes` |
//!
//! A device that is named is a file of that path, whatever the command (`path` of `device_of`). What the words, the files and
//! the output do is proved below. Only tested: that the right word gives the path, and what standard error is told.
#![tactic(auto)]

mod inspecting;
mod names;
mod uses;

use crate::inspecting::inspect_over;
use crate::names::{books_of, device_of, devices_of, named_by};
use crate::uses::{add, uses_of};
use call_devices::{Ballot, Progress, WatchedSink, WatchedSource, quorum_of};
use call_notes::{Ending, note};
use dragoon_app::{Command, carry_out, command_of, leading};
use inspect_call::asked_of;
use outside_io::{StdSink, StdSource, SystemClock};
use std::alloc::AllocError;
use std::fs::File;
use std::io::IsTerminal;
use std::process::ExitCode;
use std::rt::{Files, Runtime};
use std::{env, fs, io};

/// Which streams are terminals.
#[derive(Clone, Copy)]
struct Terminals {
    input: bool,
    output: bool,
    error: bool,
}

/// The words of the process. Where one of them is no text, none: no command has such a word.
fn words_of<R: Runtime + AllocGlobal>(rt: &R) -> Result<Vec<String>, AllocError> {
    let mut words = Vec::new(rt.alloc());
    match env::args(rt) {
        Ok(args) => {
            for word in args.skip(1) {
                words.push(word)?;
            }
            Ok(words)
        }
        Err(fail) if fail.kind() == io::ErrorKind::OutOfMemory => Err(AllocError),
        Err(_) => {
            let _ = eprintln!(rt;
                "dragoon: an argument is no text in UTF-8, so no command was read"
            );
            Ok(words)
        }
    }
}

/// Three files that are never used. If standard input, output or error is closed they take its number, so that the store
/// doesn't: what is printed would be written into it. They are folders, so that such an input or output fails.
fn spare_numbers<R: Files<File = File>>(rt: &R) -> [io::Result<File>; 3] {
    [fs::open(rt, "/"), fs::open(rt, "/"), fs::open(rt, "/")]
}

/// What is carried out of a call. A policy over no book is refused, as words that are no command are: its tiles would begin
/// at the first one, whatever is filed elsewhere, and the store could never be validated again.
fn carried_of<'a>(words: &[String], call: &'a [String]) -> &'a [String] {
    match command_of(call) {
        Some(Command::Policy { .. }) if named_by(words, "notary").path.is_none() => &[],
        _ => call,
    }
}

/// Makes the call over the devices that these words name, and notes what there is to note.
fn run_over<R: Runtime + Files<File = File> + AllocGlobal + Drop>(
    rt: &R,
    words: &[String],
    call: &[String],
    terminals: Terminals,
) -> Result<u8, AllocError> {
    let alloc = rt.alloc();
    let carried = carried_of(words, call);
    let (store_use, copy_use, target_use, book_use) = uses_of(command_of(carried));
    let progress = Progress::new(rt, terminals.error, terminals.output);
    let (a_store, a_copy) = (named_by(words, "store"), named_by(words, "copy"));
    let (a_target, books) = (named_by(words, "target"), books_of(alloc, words)?);
    let mut store = device_of(rt, words, a_store, store_use, &progress)?;
    let mut copy = device_of(rt, words, a_copy, copy_use, &progress)?;
    let mut target = device_of(rt, words, a_target, target_use, &progress)?;
    let disks = devices_of(rt, words, &books, book_use, &progress)?;
    let ballot = Ballot::new(books.len());
    let mut notary = quorum_of(alloc, disks, &ballot)?;
    let mut clock = SystemClock::new(rt.clone()?);
    let stdin = StdSource::new(rt.clone()?);
    let is_asked = terminals.input && terminals.error;
    let mut input = WatchedSource::new(stdin, rt.clone()?, &progress, is_asked);
    let mut out = WatchedSink::new(StdSink::new(rt.clone()?), rt.clone()?, &progress);
    let called = carry_out(
        alloc,
        carried,
        &mut store,
        &mut copy,
        &mut target,
        &mut notary,
        &mut clock,
        &mut input,
        &mut out,
    );
    progress.clear(rt);
    let mut devices = Vec::new(alloc);
    add(&mut devices, a_store, store_use, store.left(), false)?;
    add(&mut devices, a_copy, copy_use, copy.left(), false)?;
    add(&mut devices, a_target, target_use, target.left(), false)?;
    for (place, (book, member)) in books.iter().zip(notary.into_members()).enumerate() {
        let left = member.into_below().into_disk().left();
        add(&mut devices, *book, book_use, left, ballot.is_odd(place))?;
    }
    let code = called.status.code();
    let ending = Ending {
        code,
        call,
        devices: &devices,
        seen: &called.seen,
        input: input.below.error(),
        output: out.below.error(),
        is_unfed: input.is_unfed(),
    };
    let _ = note(rt, &ending);
    Ok(code)
}

fn run<R: Runtime + Files<File = File> + AllocGlobal + Drop>(
    rt: &R,
    terminals: Terminals,
) -> Result<u8, AllocError> {
    let _spare = spare_numbers(rt);
    let words = words_of(rt)?;
    let (words, call) = words.split_at(leading(&words));
    match asked_of(call) {
        Some(asked) => inspect_over(rt, words, call, asked),
        None => run_over(rt, words, call, terminals),
    }
}

fn main(rt: HostRuntime) -> ExitCode {
    let terminals = Terminals {
        input: rt.stdin().is_terminal(),
        output: rt.stdout().is_terminal(),
        error: rt.stderr().is_terminal(),
    };
    match run(&rt, terminals) {
        Ok(code) => ExitCode::from(code),
        Err(_) => {
            let _ = eprintln!(rt; "dragoon: no memory was left for the words of the call");
            ExitCode::from(9)
        }
    }
}
