//! Findings as lines of output.

ghost use Rattle.std.specs.Prelude.{◌≡◌, ◌++◌, ◌+◌, ◌<◌, ◌^◌, length, OnOk, IfOk};
ghost use Rattle.std.specs.List.{flat_map};
ghost use Rattle.file_findings.specs.Lines.{device_text, two, three, tail_words, words_of, line_of, more_line, kind_lines, last_line, report_text, of_kind};

use crate::finding::{Device, Finding, Found};
use crate::kind::Kind;
use crate::listing::{Made, note};
use byte_grammar::put_numbered;
use std::alloc::Global;

/// How many of a name have lines.
const MOST_LINES: usize = 100;

/// The lines so far.
#[derive(Drop)]
struct Text {
    alloc: Global,
    bytes: Vec<u8>,
}

impl Text {
    ghost use Rattle.byte_grammar.specs.Numbered.{numbered};

    fn put(&mut self, words: &[u8]) -> Made<()>
        ensures ok { OnOk result (self.new.bytes.items ≡ self.old.bytes.items ++ words.now) }
    {
        self.bytes.extend_from_slice(words)
    }

    fn one(&mut self, v: &[u8], m: u64) -> Made<()>
        ensures ok { OnOk result (self.new.bytes.items ≡ self.old.bytes.items ++ numbered v.now m) }
    {
        put_numbered(self.alloc, &mut self.bytes, v, m)
    }

    fn two(&mut self, v: &[u8], m: u64, w: &[u8], n: u64) -> Made<()>
        ensures ok { OnOk result (self.new.bytes.items ≡ self.old.bytes.items ++ two v.now m w.now n) }
    {
        self.one(v, m)?;
        self.one(w, n)
    }

    fn three(&mut self, u: &[u8], l: u64, v: &[u8], m: u64, w: &[u8], n: u64) -> Made<()>
        ensures ok { OnOk result (self.new.bytes.items ≡ self.old.bytes.items ++ three u.now l v.now m w.now n) }
    {
        self.one(u, l)?;
        self.two(v, m, w, n)
    }

    /// Where bytes stand after records.
    fn tail(&mut self, segment: u32, byte: u64, bytes: u64, records: u64) -> Made<()>
        ensures ok { OnOk result (self.new.bytes.items ≡ self.old.bytes.items ++ tail_words segment byte bytes records) }
    {
        self.two(b" segment ", u64::from(segment), b" byte ", byte)?;
        self.two(b" bytes ", bytes, b" records ", records)
    }

    fn device(&mut self, device: Device) -> Made<()>
        ensures ok { OnOk result (self.new.bytes.items ≡ self.old.bytes.items ++ device_text device) }
    {
        match device {
            Device::Store => self.put(b"store"),
            Device::Book => self.put(b"book"),
            Device::BookOf { number } => self.one(b"book ", number),
        }
    }

    /// The words and numbers of a finding.
    fn words(&mut self, finding: Finding) -> Made<()>
        ensures ok { OnOk result (self.new.bytes.items ≡ self.old.bytes.items ++ words_of finding) }
    {
        match finding {
            Finding::NoStore | Finding::NoBook | Finding::LostStore | Finding::FirstFormat => Ok(
                (),
            ),
            Finding::DamagedFront(n) => self.one(b" byte ", n),
            Finding::DamagedList(n) => self.one(b" record ", n),
            Finding::OtherId(n) => self.one(b" id ", n),
            Finding::CutOff(l, m, n, o) | Finding::Trailing(l, m, n, o) => self.tail(l, m, n, o),
            Finding::NumberGap(l, m, n) => {
                let (m, n) = (u64::from(m), u64::from(n));
                self.three(b" item ", l, b" before ", m, b" this ", n)
            }
            Finding::MomentFalls(l, m, n) => self.three(b" item ", l, b" before ", m, b" this ", n),
            Finding::Misfit(m, n) => self.two(b" item ", m, b" operation ", n),
            Finding::Unsayable(m, n) => self.two(b" item ", m, b" operation ", n),
            Finding::IdlePolicy(n) => self.one(b" item ", n),
            Finding::OddFrontier(m, n) => self.two(b" item ", m, b" moment ", n),
            Finding::Beyond(m, n) => self.two(b" item ", m, b" moment ", n),
            Finding::StoreAhead(m, n) => self.two(b" moment ", m, b" clock ", n),
            Finding::StoreBehind(l, m, n) => self.three(b" tile ", l, b" end ", m, b" last ", n),
            Finding::UnsealedEra(l, m, n) => {
                self.three(b" era ", l, b" tile ", u64::from(m), b" sealed ", n)
            }
            Finding::UnsealedFrontier(m, n) => self.two(b" tile ", m, b" sealed ", n),
            Finding::SealMissing(n) => self.one(b" batch ", n),
            Finding::BatchEarly(l, m, n) => self.three(b" batch ", l, b" second ", m, b" end ", n),
            Finding::MarkOver(l, m, n) => {
                self.three(b" mark ", l, b" tiles ", u64::from(m), b" sealed ", n)
            }
            Finding::SecondsFall(l, m, n) => self.three(
                b" entry ",
                l,
                b" before ",
                m,
                b" this ",
                n,
            ),
            Finding::AlteredMark(l, m, n) => self.three(
                b" mark ",
                l,
                b" second ",
                m,
                b" marks ",
                n,
            ),
            Finding::BookAhead(m, n) => self.two(b" second ", m, b" clock ", n),
            Finding::BookDiffers(n) => self.one(b" entry ", n),
            Finding::BookBehind(m, n) => self.two(b" sealed ", m, b" most ", n),
        }
    }

    /// The line of a finding, as `alarm number-gap of store item 12 before 8 this 10`.
    fn line(&mut self, found: &Found) -> Made<()>
        ensures ok { OnOk result (self.new.bytes.items ≡ self.old.bytes.items ++ line_of found.now) }
    {
        self.put(found.finding.rank().name())?;
        self.put(b" ")?;
        self.put(found.finding.kind().name())?;
        self.put(b" of ")?;
        self.device(found.device)?;
        self.words(found.finding)?;
        self.put(b"\n")
    }

    /// That there are more of a kind, if there are.
    fn more(&mut self, kind: Kind, more: u64) -> Made<()>
        ensures ok { OnOk result (self.new.bytes.items ≡ self.old.bytes.items ++ more_line kind more) }
    {
        if more == 0 {
            return Ok(());
        }
        self.put(b"more ")?;
        self.put(kind.name())?;
        self.one(b" ", more)?;
        self.put(b"\n")
    }

    /// A line each.
    fn lines(&mut self, some: &[Found]) -> Made<()>
        ensures ok { OnOk result (self.new.bytes.items ≡ self.old.bytes.items ++ flat_map line_of some.now) }
    {
        for found in some {
            self.line(found)?;
        }
        Ok(())
    }

    /// The lines of a kind.
    fn kind(&mut self, kind: Kind, all: &[Found]) -> Made<()>
        ensures ok { OnOk result (self.new.bytes.items ≡ self.old.bytes.items ++ kind_lines all.now kind) }
    {
        let some = of_kind(self.alloc, kind, all)?;
        let listed = MOST_LINES.min(some.len());
        self.lines(&some[..listed])?;
        self.more(kind, (some.len() - listed) as u64)
    }

    fn last(&mut self, items: u64, entries: u64, findings: u64) -> Made<()>
        ensures ok { OnOk result (self.new.bytes.items ≡ self.old.bytes.items ++ last_line items entries findings) }
    {
        self.three(
            b"inspected store ",
            items,
            b" book ",
            entries,
            b" findings ",
            findings,
        )?;
        self.put(b"\n")
    }
}

/// Those of a kind.
fn of_kind(alloc: Global, kind: Kind, all: &[Found]) -> Made<Vec<Found>>
    ensures value { IfOk result (λ some. some.items ≡ of_kind kind all.now) }
{
    let mut some = Vec::new(alloc);
    for found in all {
        note(&mut some, kind.is_of(&found.finding), *found)?;
    }
    Ok(some)
}

/// All lines: kind by kind, by the table, and how much was looked at.
pub fn report(alloc: Global, items: u64, entries: u64, all: &[Found]) -> Made<Vec<u8>>
    ensures value { IfOk result (λ text. text.items ≡ report_text items entries all.now) }
{
    let bytes = Vec::new(alloc);
    let mut text = Text { alloc, bytes };
    let kinds = Kind::all();
    for kind in &kinds {
        text.kind(*kind, all)?;
    }
    text.last(items, entries, all.len() as u64)?;
    Ok(text.bytes)
}
