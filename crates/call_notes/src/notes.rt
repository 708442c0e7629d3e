//! The notes on a call.

use crate::ending::{Ending, Noted};
use crate::tables::{fault_of, form_of};
use crate::usage::USAGE;
use call_devices::Found;
use line_runs::{Refusal, Seen};
use std::io::{self, ErrorKind};
use std::str;
use validator::Verdict;

/// Says all that there is to say, each on a line of its own.
pub fn note<R: Eprint>(rt: &R, ending: &Ending<'_>) -> io::Result<()> {
    let command = ending.call.first().map_or("", |word| word.as_str());
    if ending.code == 2 {
        return note_usage(rt, ending, command);
    }
    note_fault(rt, ending)?;
    for device in ending.devices {
        note_failed(rt, device)?;
        note_found(rt, ending, device)?;
        // on the first day `init` is given the book that later commands take
        let is_early = command == "init" && device.named.word == "notary";
        if device.named.path.is_some() && !device.is_used && !is_early {
            let named = device.named;
            eprintln!(rt; "dragoon: {named} isn't used by `{command}`")?;
        }
    }
    if ending.code == 1 && command != "examine" {
        eprintln!(rt;
            "dragoon: the store isn't what was filed: keep it and the book as they are, and copy both. Next: `inspect`, `analyse`, `evidence`; docs/RUNBOOK.md"
        )?;
    }
    note_verdict(rt, ending.seen.verdict)?;
    if ending.is_unfed {
        eprintln!(rt; "dragoon: the input ended after 0 bytes, so nothing was executed")?;
    }
    note_lines(rt, ending.seen)
}

/// The whole page, if no word is given or it is asked for, or else the lines of the command.
fn note_usage<R: Eprint>(rt: &R, ending: &Ending<'_>, command: &str) -> io::Result<()> {
    if ["", "--help", "-h", "help"].contains(&command) {
        return eprint!(rt; "{USAGE}");
    }
    let has_book = ending.devices.iter().any(|device| device.named.word == "notary"
        && device.named.path.is_some());
    if command == "policy" && !has_book {
        return eprintln!(rt;
            "dragoon: `policy` begins new tiles after those that the book has sealed, so name it: notary=FILE"
        );
    }
    eprintln!(rt;
        "dragoon: {command:?} and the arguments after it are no command; `dragoon --help` lists all"
    )?;
    for line in USAGE.lines() {
        if line.split(' ').nth(2) == Some(command) {
            eprintln!(rt; "{line}")?;
        }
    }
    Ok(())
}

fn note_fault<R: Eprint>(rt: &R, ending: &Ending<'_>) -> io::Result<()> {
    if let Some(words) = fault_of(ending.code) {
        eprintln!(rt; "dragoon: {words}")?;
    }
    if let Some(error) = ending.input {
        eprintln!(rt; "dragoon: the input: {error}")?;
    }
    if let Some(error) = ending.output {
        eprintln!(rt; "dragoon: the output: {error}")?;
    }
    Ok(())
}

/// Why a file failed, and which notary stood out among several.
fn note_failed<R: Eprint>(rt: &R, device: &Noted<'_>) -> io::Result<()> {
    let named = device.named;
    match device.left.error {
        Some(error) if error.kind() == ErrorKind::WouldBlock => {
            eprintln!(rt; "dragoon: {named}: another process has it open, or it is named twice")
        }
        Some(error) if error.kind() == ErrorKind::AlreadyExists => {
            eprintln!(rt; "dragoon: {named}: it was missing, and another process made it meanwhile")
        }
        Some(error) => eprintln!(rt; "dragoon: {named}: {error}"),
        None if device.is_odd => {
            eprintln!(rt;
                "dragoon: {named} failed or differs from most of the books: keep it as it is; docs/NOTARY.md"
            )
        }
        None => Ok(()),
    }
}

/// What was missing, what is new, and what is gone.
fn note_found<R: Eprint>(rt: &R, ending: &Ending<'_>, device: &Noted<'_>) -> io::Result<()> {
    let (named, left) = (device.named, device.left);
    let word = named.word;
    if left.is_gone && ending.code < 4 {
        return eprintln!(rt;
            "dragoon: no {word}=FILE was named, so what was written to {named} is gone"
        );
    }
    if left.is_made && word == "notary" {
        return eprintln!(rt;
            "dragoon: {named} is new. If this store was filed before, that is in another book; docs/NOTARY.md"
        );
    }
    let is_there = matches!(left.found, Found::Unasked | Found::Filled);
    if !is_there && !left.is_made && word != "target" {
        return eprintln!(rt;
            "dragoon: {named} was missing or empty: if it holds nothing yet, name the right file"
        );
    }
    Ok(())
}

/// A verdict over no tile.
fn note_verdict<R: Eprint>(rt: &R, verdict: Option<Verdict>) -> io::Result<()> {
    let words = match verdict {
        Some(Verdict::Unsealed) => "nothing was compared: nothing is filed under this id",
        Some(Verdict::Clean { tiles: 0 }) => "only the header was compared: no tile is filed yet",
        _ => return Ok(()),
    };
    eprintln!(rt; "dragoon: {words}; docs/NOTARY.md")
}

/// What became of the lines of the input.
fn note_lines<R: Eprint>(rt: &R, seen: &Seen) -> io::Result<()> {
    let (refused, replies) = (seen.refused, seen.replies);
    if refused > 0 {
        eprintln!(rt; "dragoon: {refused} of {replies} replies are refusals; docs/LANGUAGE.md")?;
    }
    if let Some(first) = &seen.first_refusal {
        note_refused(rt, first)?;
    }
    for (session, is_open) in seen.begun.iter().enumerate() {
        if *is_open {
            eprintln!(rt;
                "dragoon: session s{session} was begun and not ended, so nothing of it is stored"
            )?;
        }
    }
    Ok(())
}

/// The first line that was refused, with the form of its statement.
fn note_refused<R: Eprint>(rt: &R, first: &Refusal) -> io::Result<()> {
    let number = first.number;
    let line = str::from_utf8(first.line.as_slice()).unwrap_or("(bytes that are no text)");
    let reply = str::from_utf8(first.reply.as_slice())
        .unwrap_or("")
        .trim_end();
    // (the name of a session may precede the word)
    let form = line
        .split(' ')
        .filter(|word| *word != "")
        .take(2)
        .find_map(form_of);
    let form = form.unwrap_or("none, since no statement begins so");
    eprintln!(rt; "dragoon: line {number}, {line:?}: {reply}. Its form: {form}")
}
