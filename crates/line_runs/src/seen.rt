//! What a call has seen beside its output: the first refusal with its line, the sessions left open, the verdict.

ghost use Rattle.std.specs.Prelude.{◌≡◌, ◌≤◌, take, IfOk, OnErr, Ok};
ghost use Rattle.stmt_text.specs.Fits.{FitsParts};
ghost use Rattle.stmt_text.specs.declared.line.Line.TheVariants.{InSession};
ghost use Rattle.line_runs.specs.Sees.{
  SeesNothing,
  IsFrontOf,
  Follows,
  NotesFirst,
  Notes,
  StaysBut,
  front_length,
  leaves_session,
};

use std::alloc::Global;
use stmt_text::{Line, Stmt};
use store_world::LineFail;
use tuple_bytes::Blob;
use validator::Verdict;

/// As many bytes of a refused line are kept.
const FRONT: usize = 200;

/// A line that was refused.
#[derive(Drop)]
pub struct Refusal {
    /// Among the lines of the input, from 1; blank ones count.
    pub number: u64,
    /// Its first 200 bytes; none where memory was wanting for them.
    pub line: Blob,
    pub reply: Blob,
}

/// What a call has seen.
#[derive(Drop)]
pub struct Seen {
    /// How many lines were carried out, blank ones too.
    pub lines: u64,
    /// How many of them had a reply.
    pub replies: u64,
    /// How many replies are refusals.
    pub refused: u64,
    pub first_refusal: Option<Refusal>,
    pub verdict: Option<Verdict>,
    /// Which sessions are begun, by their number.
    pub begun: [bool; 16],
}

/// The first bytes of a line.
fn front(line: &[u8]) -> &[u8]
    ensures value { result.now ≡ take front_length line.now }
{
    &line[..line.len().min(FRONT)]
}

/// The same in memory of its own, or nothing.
fn front_of(alloc: Global, line: &[u8]) -> Blob
    ensures value { IsFrontOf line.now result }
{
    match front(line).to_vec(alloc) {
        Ok(front) => Blob::from_vec(front),
        Err(_) => Blob::new(alloc),
    }
}

impl Seen {
    /// Nothing. It takes no memory.
    pub fn new() -> Seen
        ensures value { SeesNothing result }
    {
        Seen {
            lines: 0,
            replies: 0,
            refused: 0,
            first_refusal: None,
            verdict: None,
            begun: [false; 16],
        }
    }

    /// Counts a line, and its reply where it has one. So many replies are refusals now.
    fn count(&mut self, reply: &[u8], refused: u64)
        ensures change { StaysBut self.old.lines refused self.old self.new }
    {
        self.lines = self.lines.saturating_add(1);
        self.refused = refused;
        if !reply.is_empty() {
            self.replies = self.replies.saturating_add(1);
        }
    }

    /// Keeps the line that was counted last, with its reply, where it is the first that is refused.
    fn keep(&mut self, alloc: Global, line: &[u8], reply: Blob)
        ensures lines { self.new.lines ≡ self.old.lines }
        ensures refused { self.new.refused ≡ self.old.refused }
        ensures begun { self.new.begun ≡ self.old.begun }
        ensures first { NotesFirst line.now reply self.old.lines self.old.refused self.old.first_refusal self.new.first_refusal }
    {
        if 0 < self.refused && self.first_refusal.is_none() {
            self.first_refusal = Some(Refusal {
                number: self.lines,
                line: front_of(alloc, line),
                reply,
            });
        }
    }

    /// Notes a line that was carried out, with its reply. So many replies are refusals now.
    pub fn note(&mut self, alloc: Global, line: &[u8], reply: Blob, refused: u64)
        ensures value { Notes line.now reply refused self.old self.new }
    {
        self.count(reply.as_slice(), refused);
        self.keep(alloc, line, reply);
    }
}

/// A refusal leaves a session as it was, unless it is that of a conflict.
fn leaves_session(reply: &[u8]) -> bool
    ensures value { result ≡ leaves_session reply.now }
{
    reply.starts_with(b"refused ".as_slice()) && !reply.starts_with(b"refused Conflict ".as_slice())
}

/// A session is begun or ended by a statement of its own, to which this was replied.
fn follow_session(begun: &mut [bool; 16], session: u8, stmt: &Stmt, reply: &[u8])
    requires session { session ≤ 15 }
    ensures value { Follows (Ok (InSession session stmt.now)) reply.now begun.old begun.new }
{
    if leaves_session(reply) {
        return;
    }
    match stmt {
        Stmt::Begin => begun[usize::from(session)] = true,
        Stmt::Commit | Stmt::Abort => begun[usize::from(session)] = false,
        _ => {}
    }
}

/// Which sessions are begun after a line of the grammar.
pub fn follow(begun: &mut [bool; 16], line: &Line, reply: &Result<Blob, LineFail>)
    requires fits { FitsParts line.now }
    ensures value { IfOk reply.now (λ text. Follows (Ok line.now) text begun.old begun.new) }
    ensures same { OnErr reply.now (begun.new ≡ begun.old) }
{
    if let (Line::InSession { session, stmt }, Ok(text)) = (line, reply) {
        follow_session(begun, *session, stmt, text.as_slice());
    }
}
