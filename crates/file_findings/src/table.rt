//! What each finding means, and what is to be done: the one place that says it.

ghost use Rattle.std.specs.Prelude.{◌≡◌, ◌++◌, OnOk, IfOk};
ghost use Rattle.file_findings.specs.Kinds.{name_of};
ghost use Rattle.file_findings.specs.Rows.{field, row_text};

use crate::kind::Kind;
use crate::listing::Made;
use std::alloc::Global;

/// A row of the table.
#[derive(Clone, Copy, Debug)]
pub struct Row {
    pub name: &'static [u8],
    pub ranks: &'static [u8],
    /// The word before each of its numbers.
    pub words: &'static [u8],
    pub meaning: &'static [u8],
    pub next: &'static [u8],
}

/// The name of each kind, its ranks, the word before each number, what it means, and what is to be done, or the word of that.
const TABLE: &str = "\
no-store|alarm or notice||The file that is named as the store is missing or empty. It is an alarm if a book has a batch under the id.|FILE
no-book|notice||The file that is named as a book is missing or empty.|FILE
damaged|alarm|byte or record|The file has no header at its front, or the batches of a book do not follow one another.|Keep the file as it is, and work with a copy of it that is older.
other-id|alarm|id|The file is that of another store.|Name the right file, or the right id.
format-1|notice||The store has the first format, to which nothing can be added.|Migrate it before anything is stored.
trailing|alarm or notice|segment byte bytes records|Bytes follow the records of a segment or of a book. It is an alarm if they are not what an append leaves that was cut off.|STORE
number-gap|alarm|item before this|The number of a transaction is not the one after that before it: some were lost, altered or inserted.|STORE
moment-falls|alarm|item before this|The moment of an item is before that of the item before it.|STORE
misfit|alarm|item operation|No statement could make this operation of the tables that those before it make. It is ignored.|STORE
unsayable|alarm|item operation|The operation has a text that no statement can spell.|STORE
idle-policy|alarm|item|A policy begins no era.|STORE
odd-frontier|alarm|item moment|A Frontier has a moment that no filing and no restoring gives it.|STORE
beyond|alarm|item moment|A transaction is after the last granule, where none is stored.|STORE
store-ahead|notice|moment clock|The store's last moment is after the clock.|CLOCK
store-behind|alarm|tile end last|A tile is sealed that ends after the store's last moment: items were taken out, or the store is an older copy.|STORE
unsealed-era|alarm|era tile sealed|An era begins at a tile that the book has not sealed: the book was cut or is another one, or the era was inserted.|BOOK
unsealed-frontier|notice|tile sealed|The Frontier of a filing ends a tile that the book has not sealed: the filing was cut off, or the book was cut or is another one.|File again. If that seals other tiles, keep the book as it is, and compare it with its copies.
seal-missing|alarm|batch|A batch lacks the digest that each of its index has.|BOOK
batch-early|notice|batch second end|A batch is of a second before its tile had ended.|CLOCK
mark-over|alarm|mark tiles sealed|A mark is over more tiles than were sealed before it, or names a bad tile that it is not over.|BOOK
seconds-fall|notice|entry before this|An entry is of an earlier second than one before it.|CLOCK
altered-mark|alarm|mark second marks|A validation found the store altered.|Analyse the store, and keep evidence.
book-ahead|notice|second clock|An entry of the book is after the clock.|CLOCK
book-differs|alarm|entry|The lists of a book are not those of more than half of the books.|BOOK
book-behind|alarm|sealed most|A book has only the first entries of what more than half of the books have.|Put a copy of one of the others in its place.
";

/// What is to be done in several rows, after the word that stands for it there.
const STEPS: &str = "\
FILE|Name the right file, or put a copy in its place.
STORE|Store nothing more. Keep the store and the book as they are, and compare the store with its copies.
BOOK|File nothing more. Keep the book as it is, and compare it with its copies.
CLOCK|Set the clock right. If it was right all the time, compare the file with its copies.
";

/// The line of a text that begins so.
fn line_of(text: &'static str, word: &[u8]) -> Option<&'static str> {
    text.lines().find(|line| line.as_bytes().starts_with(word))
}

fn part_of(line: &'static str, place: usize) -> &'static str {
    line.split('|').nth(place).unwrap_or("")
}

impl Kind {
    /// Its row.
    pub fn row(self) -> Row
        ensures name { result.name.now ≡ name_of self }
    {
        let name = self.name();
        let line = line_of(TABLE, name).unwrap_or("");
        let step = part_of(line, 4);
        let next = line_of(STEPS, step.as_bytes()).map_or(step, |line| part_of(line, 1));
        Row {
            name,
            ranks: part_of(line, 1).as_bytes(),
            words: part_of(line, 2).as_bytes(),
            meaning: part_of(line, 3).as_bytes(),
            next: next.as_bytes(),
        }
    }
}

/// A line of a row: a word, and what it says.
fn put_field(out: &mut Vec<u8>, word: &[u8], text: &[u8]) -> Made<()>
    ensures ok { OnOk result (out.new.items ≡ out.old.items ++ field word.now text.now) }
{
    out.extend_from_slice(word)?;
    out.extend_from_slice(text)?;
    out.extend_from_slice(b"\n")
}

/// The row of a kind, a line for each field, and the page that says more.
pub fn explain(alloc: Global, row: &Row) -> Made<Vec<u8>>
    ensures value { IfOk result (λ text. text.items ≡ row_text row.now) }
{
    let mut out = Vec::new(alloc);
    put_field(&mut out, b"name ", row.name)?;
    put_field(&mut out, b"rank ", row.ranks)?;
    put_field(&mut out, b"words ", row.words)?;
    put_field(&mut out, b"means ", row.meaning)?;
    put_field(&mut out, b"next ", row.next)?;
    put_field(&mut out, b"page docs/FINDINGS.md#", row.name)?;
    Ok(out)
}
