//! A notary in a file.

ghost use Rattle.notary_book.specs.Kept.{KeepsOf, SettledOf, OpenOf};

use crate::adding::add_payload;
use crate::kept::Kept;
use crate::opening::open_book;
use crate::shape::BookShape;
use crate::writing::{spell_batch, spell_mark};
use disk_model::{Disk, DiskFail};
use notary_link::{Answer, Mark, Name, Notary, NotaryFail, Seal, compare};
use std::alloc::Global;
use txn_journal::{Journal, JournalFail};

/// A notary that keeps its book in a file over a disk. It reads the file at its first call, and again
/// at the first call after one that answered `Failed` or `NoMemory`.
#[derive(Drop)]
pub struct Book<D: Disk> {
    alloc: Global,
    disk: D,
    kept: Option<Kept>,
    asked: u64,
    // how often what was read was no book
    unreadable: u64,
    ghost keeps: { KeepsOf (D.state disk).reads kept },
    ghost settled: { SettledOf (D.state disk) kept },
    ghost opens: { OpenOf kept },
}

impl<D: Disk> Book<D> {
    ghost use Rattle.std.specs.Prelude.{◌≡◌, ◌≤◌, ◌+◌, false, length, None, Some, IsSome, IfSome, IfOk, OnOk};
    ghost use Rattle.outside_words.specs.Faults.{HasCause};
    ghost use Rattle.outside_words.specs.Shown.{ShowsFaults};
    ghost use Rattle.outside_words.specs.Told.{WhereTold};
    ghost use Rattle.disk_words.specs.Disk.{GoesOn as DiskGoesOn};
    ghost use Rattle.byte_grammar.specs.Gated.{FitsRecord};
    ghost use Rattle.notary_link.specs.declared.fail.NotaryFail.TheVariants.{Failed};
    ghost use Rattle.notary_link.specs.Batches.{IsBatch};
    ghost use Rattle.notary_link.specs.Notary.{file, note, batch_of, IsAsked, IsNotOutOfTurn, Answers, GoesOn, in_doubt};
    ghost use Rattle.notary_book.specs.Adding.{Adds};
    ghost use Rattle.notary_book.specs.Anew.{Looks, OnRefusal, CountsReading, Alters};
    ghost use Rattle.notary_book.specs.Books.{book_shape};
    ghost use Rattle.notary_book.specs.Kept.{IsOpen, next_gate, HasPlace, IsSettled};
    ghost use Rattle.notary_book.specs.Moments.{LeavesNone, LeavesOf};
    ghost use Rattle.notary_book.specs.State.{book_state};

    /// A book over a disk. It takes no memory, and calls no device.
    pub fn new(alloc: Global, disk: D) -> Self
        ensures fresh { ⟦<Book<D> as Notary>⟧.state result ≡ book_state (D.state disk) 0 0 }
    {
        Book {
            alloc,
            disk,
            kept: None,
            asked: 0,
            unreadable: 0,
        }
    }

    /// The disk, with the file as it is.
    pub fn into_disk(self) -> D
        ensures value { result ≡ self.disk }
    {
        self.disk
    }

    // Reads the file, where what it says is not kept.
    fn read(&mut self) -> Result<(), NotaryFail>
        ensures unread { IsSome self.old.kept → self.new.disk ≡ self.old.disk }
        ensures looks { Looks result (D.state self.old.disk) (D.state self.new.disk)
            self.old.kept self.new.kept self.old.unreadable self.new.unreadable }
        ensures only { IsAsked result }
        ensures reads { (D.state self.new.disk).reads ≡ (D.state self.old.disk).reads }
        ensures faults { (D.state self.old.disk).faults ≤ (D.state self.new.disk).faults }
        ensures unreadable { self.old.unreadable ≤ self.new.unreadable }
        ensures asked { self.new.asked ≡ self.old.asked }
        ensures told { WhereTold (D.state self.old.disk).reads (D.state self.new.disk).reads
            (LeavesNone (D.state self.old.disk) (D.state self.new.disk)) }
        ensures cause { HasCause Failed ((D.state self.old.disk).faults + self.old.unreadable)
            ((D.state self.new.disk).faults + self.new.unreadable) result }
        ensures counted { ShowsFaults in_doubt ((D.state self.old.disk).faults + self.old.unreadable)
            ((D.state self.new.disk).faults + self.new.unreadable) result }
    {
        if self.kept.is_some() {
            return Ok(());
        }
        match open_book(self.alloc, &mut self.disk) {
            Ok(Some(kept)) => {
                self.kept = Some(kept);
                Ok(())
            }
            Ok(None) => {
                self.unreadable = self.unreadable.saturating_add(1);
                Err(NotaryFail::Failed)
            }
            Err(DiskFail::Failed) => Err(NotaryFail::Failed),
            Err(DiskFail::NoMemory) => Err(NotaryFail::NoMemory),
        }
    }

    // Adds a payload to the file. Nothing is kept then, until the caller keeps what it knows.
    fn add(
        &mut self,
        journal: Option<Journal<BookShape>>,
        payload: &[u8],
    ) -> Result<Journal<BookShape>, NotaryFail>
        requires none { self.old.kept ≡ None }
        requires fits { FitsRecord book_shape payload.now }
        requires open { IsOpen journal }
        ensures none { self.new.kept ≡ None }
        ensures open { IfOk result (λ now. now.is_closed ≡ false) }
        ensures only { IsAsked result }
        ensures told { WhereTold (D.state self.old.disk).reads (D.state self.new.disk).reads
            (Adds journal payload.now result (D.state self.old.disk) (D.state self.new.disk)) }
        ensures frame { DiskGoesOn (D.state self.old.disk) (D.state self.new.disk) }
        ensures unreadable { self.old.unreadable ≤ self.new.unreadable }
        ensures counts { IfSome (D.state self.old.disk).reads (λ bytes. HasPlace journal payload.now)
            → CountsReading result (D.state self.old.disk) (D.state self.new.disk)
            self.old.unreadable self.new.unreadable }
        ensures gate { IfSome (D.state self.old.disk).reads (λ bytes.
            IfOk result (λ now. now.end ≡ next_gate journal + 5 + length payload.now)) }
        ensures asked { self.new.asked ≡ self.old.asked }
        ensures cause { HasCause Failed ((D.state self.old.disk).faults + self.old.unreadable)
            ((D.state self.new.disk).faults + self.new.unreadable) result }
        ensures counted { ShowsFaults in_doubt ((D.state self.old.disk).faults + self.old.unreadable)
            ((D.state self.new.disk).faults + self.new.unreadable) result }
    {
        match add_payload(self.alloc, &mut self.disk, journal, payload) {
            Ok(journal) => Ok(journal),
            Err(JournalFail::DiskFault) => Err(NotaryFail::Failed),
            Err(JournalFail::NoMemory) => Err(NotaryFail::NoMemory),
            // The device changed behind the book's back.
            Err(_) => {
                self.unreadable = self.unreadable.saturating_add(1);
                Err(NotaryFail::Failed)
            }
        }
    }

    // Files a batch behind what is kept.
    fn file_behind(
        &mut self,
        kept: Kept,
        id: u64,
        index: u32,
        moment: u64,
        seals: &[Seal],
    ) -> Result<(), NotaryFail>
        requires none { self.old.kept ≡ None }
        requires keeps { KeepsOf (D.state self.old.disk).reads (Some kept) }
        requires settled { SettledOf (D.state self.old.disk) (Some kept) }
        requires open { OpenOf (Some kept) }
        requires batch { IsBatch seals.now }
        ensures change { Answers (file id index (batch_of moment seals.now)) result
            (book_state (D.state self.old.disk) self.old.asked self.old.unreadable)
            (book_state (D.state self.new.disk) self.new.asked self.new.unreadable) }
        ensures frame { GoesOn
            (book_state (D.state self.old.disk) self.old.asked self.old.unreadable)
            (book_state (D.state self.new.disk) self.new.asked self.new.unreadable) }
        ensures cause { HasCause Failed ((D.state self.old.disk).faults + self.old.unreadable)
            ((D.state self.new.disk).faults + self.new.unreadable) result }
        ensures counted { ShowsFaults in_doubt ((D.state self.old.disk).faults + self.old.unreadable)
            ((D.state self.new.disk).faults + self.new.unreadable) result }
        ensures durable { OnOk result (IsSettled (D.state self.new.disk)) }
        ensures images { WhereTold (D.state self.old.disk).reads (D.state self.new.disk).reads
            (LeavesOf (file id index (batch_of moment seals.now)) (D.state self.old.disk) (D.state self.new.disk)) }
        ensures unread { OnRefusal result (self.new.disk ≡ self.old.disk) }
        ensures alters { Alters result (D.state self.old.disk) (D.state self.new.disk)
            (Some kept) self.new.kept self.old.unreadable self.new.unreadable }
    {
        let count = kept.pages.count(id);
        if index != count {
            self.kept = Some(kept);
            return Err(NotaryFail::OutOfTurn { count });
        }
        if !kept.pages.has_room(seals.len()) {
            self.kept = Some(kept);
            return Err(NotaryFail::Full);
        }
        let payload = spell_batch(self.alloc, id, index, moment, seals)?;
        let Kept { journal, mut pages } = kept;
        let journal = self.add(journal, &payload)?;
        pages.add_batch(self.alloc, id, moment, seals)?;
        self.kept = Some(Kept {
            journal: Some(journal),
            pages,
        });
        Ok(())
    }

    // Notes a mark behind what is kept.
    fn note_behind(&mut self, kept: Kept, id: u64, mark: Mark) -> Result<(), NotaryFail>
        requires none { self.old.kept ≡ None }
        requires keeps { KeepsOf (D.state self.old.disk).reads (Some kept) }
        requires settled { SettledOf (D.state self.old.disk) (Some kept) }
        requires open { OpenOf (Some kept) }
        ensures change { Answers (note id mark) result
            (book_state (D.state self.old.disk) self.old.asked self.old.unreadable)
            (book_state (D.state self.new.disk) self.new.asked self.new.unreadable) }
        ensures only { IsNotOutOfTurn result }
        ensures frame { GoesOn
            (book_state (D.state self.old.disk) self.old.asked self.old.unreadable)
            (book_state (D.state self.new.disk) self.new.asked self.new.unreadable) }
        ensures cause { HasCause Failed ((D.state self.old.disk).faults + self.old.unreadable)
            ((D.state self.new.disk).faults + self.new.unreadable) result }
        ensures counted { ShowsFaults in_doubt ((D.state self.old.disk).faults + self.old.unreadable)
            ((D.state self.new.disk).faults + self.new.unreadable) result }
        ensures durable { OnOk result (IsSettled (D.state self.new.disk)) }
        ensures images { WhereTold (D.state self.old.disk).reads (D.state self.new.disk).reads
            (LeavesOf (note id mark) (D.state self.old.disk) (D.state self.new.disk)) }
        ensures unread { OnRefusal result (self.new.disk ≡ self.old.disk) }
        ensures alters { Alters result (D.state self.old.disk) (D.state self.new.disk)
            (Some kept) self.new.kept self.old.unreadable self.new.unreadable }
    {
        if !kept.pages.has_room_for_mark() {
            self.kept = Some(kept);
            return Err(NotaryFail::Full);
        }
        let payload = spell_mark(self.alloc, id, mark)?;
        let Kept { journal, mut pages } = kept;
        let journal = self.add(journal, &payload)?;
        pages.add_mark(self.alloc, id, mark)?;
        self.kept = Some(Kept {
            journal: Some(journal),
            pages,
        });
        Ok(())
    }
}

impl<D: Disk> Notary for Book<D> {
    ghost use Rattle.std.proofs.Common.{lit≤};
    ghost use Rattle.std.specs.Prelude.{◌≡◌, ◌≤◌, ◌+◌, true, OnOk, IsSome};
    ghost use Rattle.outside_words.specs.Faults.{HasCause};
    ghost use Rattle.outside_words.specs.Shown.{ShowsFaults};
    ghost use Rattle.notary_link.specs.declared.fail.NotaryFail.TheVariants.{Failed};
    ghost use Rattle.notary_link.specs.Batches.{IsBatch};
    ghost use Rattle.notary_link.specs.Notary.{file, note, batch_of, GivesCount, GivesAnswer, GivesMoment, GivesMark, IsAsked, IsNotOutOfTurn, Unchanged, Answers, GoesOn, in_doubt};
    ghost use Rattle.outside_words.specs.Told.{WhereTold};
    ghost use Rattle.notary_book.specs.Anew.{Looks, OnRefusal, Alters};
    ghost use Rattle.notary_book.specs.Kept.{IsSettled};
    ghost use Rattle.notary_book.specs.Moments.{LeavesOf};
    ghost use Rattle.notary_book.specs.FewMarks.{few_told};
    ghost use Rattle.notary_book.specs.State.{book_state};

    ghost state = { λ b. book_state (D.state b.disk) b.asked b.unreadable };

    ghost asking_takes_memory = { true };

    ghost limited = { λ b. lit≤ tt };

    ghost few_marks = { λ b. few_told (D.state b.disk).reads };

    fn count(&mut self, id: u64) -> Result<u32, NotaryFail>
        ensures value { GivesCount id result (book_state (D.state self.old.disk) self.old.asked self.old.unreadable) }
        ensures only { IsAsked result }
        ensures same { Unchanged
            (book_state (D.state self.old.disk) self.old.asked self.old.unreadable)
            (book_state (D.state self.new.disk) self.new.asked self.new.unreadable) }
        ensures asked { self.new.asked ≡ self.old.asked }
        ensures frame { GoesOn
            (book_state (D.state self.old.disk) self.old.asked self.old.unreadable)
            (book_state (D.state self.new.disk) self.new.asked self.new.unreadable) }
        ensures cause { HasCause Failed ((D.state self.old.disk).faults + self.old.unreadable)
            ((D.state self.new.disk).faults + self.new.unreadable) result }
        ensures counted { ShowsFaults in_doubt ((D.state self.old.disk).faults + self.old.unreadable)
            ((D.state self.new.disk).faults + self.new.unreadable) result }

        ensures unread { IsSome self.old.kept → self.new.disk ≡ self.old.disk }
        ensures looks { Looks result (D.state self.old.disk) (D.state self.new.disk)
            self.old.kept self.new.kept self.old.unreadable self.new.unreadable }
    {
        self.read()?;
        match &self.kept {
            Some(kept) => Ok(kept.pages.count(id)),
            None => Err(NotaryFail::NoMemory),
        }
    }

    fn file(&mut self, id: u64, index: u32, moment: u64, seals: &[Seal]) -> Result<(), NotaryFail>
        requires { IsBatch seals.now }
        ensures change { Answers (file id index (batch_of moment seals.now)) result
            (book_state (D.state self.old.disk) self.old.asked self.old.unreadable)
            (book_state (D.state self.new.disk) self.new.asked self.new.unreadable) }
        ensures frame { GoesOn
            (book_state (D.state self.old.disk) self.old.asked self.old.unreadable)
            (book_state (D.state self.new.disk) self.new.asked self.new.unreadable) }
        ensures cause { HasCause Failed ((D.state self.old.disk).faults + self.old.unreadable)
            ((D.state self.new.disk).faults + self.new.unreadable) result }
        ensures counted { ShowsFaults in_doubt ((D.state self.old.disk).faults + self.old.unreadable)
            ((D.state self.new.disk).faults + self.new.unreadable) result }

        ensures durable { OnOk result (IsSettled (D.state self.new.disk)) }
        ensures images { WhereTold (D.state self.old.disk).reads (D.state self.new.disk).reads
            (LeavesOf (file id index (batch_of moment seals.now)) (D.state self.old.disk) (D.state self.new.disk)) }
        ensures unread { IsSome self.old.kept → OnRefusal result (self.new.disk ≡ self.old.disk) }
        ensures alters { Alters result (D.state self.old.disk) (D.state self.new.disk)
            self.old.kept self.new.kept self.old.unreadable self.new.unreadable }
    {
        self.read()?;
        match self.kept.take() {
            Some(kept) => self.file_behind(kept, id, index, moment, seals),
            None => Err(NotaryFail::NoMemory),
        }
    }

    fn ask(&mut self, id: u64, name: Name, digest: &[u8; 32]) -> Result<Answer, NotaryFail>
        ensures value { GivesAnswer id name digest.now result (book_state (D.state self.old.disk) self.old.asked self.old.unreadable) }
        ensures only { IsAsked result }
        ensures same { Unchanged
            (book_state (D.state self.old.disk) self.old.asked self.old.unreadable)
            (book_state (D.state self.new.disk) self.new.asked self.new.unreadable) }
        ensures asked { self.new.asked ≤ self.old.asked + 1 }
        ensures frame { GoesOn
            (book_state (D.state self.old.disk) self.old.asked self.old.unreadable)
            (book_state (D.state self.new.disk) self.new.asked self.new.unreadable) }
        ensures cause { HasCause Failed ((D.state self.old.disk).faults + self.old.unreadable)
            ((D.state self.new.disk).faults + self.new.unreadable) result }
        ensures counted { ShowsFaults in_doubt ((D.state self.old.disk).faults + self.old.unreadable)
            ((D.state self.new.disk).faults + self.new.unreadable) result }

        ensures unread { IsSome self.old.kept → self.new.disk ≡ self.old.disk }
        ensures looks { Looks result (D.state self.old.disk) (D.state self.new.disk)
            self.old.kept self.new.kept self.old.unreadable self.new.unreadable }
    {
        self.asked = self.asked.saturating_add(1);
        self.read()?;
        match &self.kept {
            Some(kept) => match kept.pages.digest(id, name) {
                Some(first) => Ok(compare(digest, first)),
                None => Ok(Answer::Absent),
            },
            None => Err(NotaryFail::NoMemory),
        }
    }

    fn moment_of(&mut self, id: u64, index: u32) -> Result<Option<u64>, NotaryFail>
        ensures value { GivesMoment id index result (book_state (D.state self.old.disk) self.old.asked self.old.unreadable) }
        ensures only { IsAsked result }
        ensures same { Unchanged
            (book_state (D.state self.old.disk) self.old.asked self.old.unreadable)
            (book_state (D.state self.new.disk) self.new.asked self.new.unreadable) }
        ensures asked { self.new.asked ≡ self.old.asked }
        ensures frame { GoesOn
            (book_state (D.state self.old.disk) self.old.asked self.old.unreadable)
            (book_state (D.state self.new.disk) self.new.asked self.new.unreadable) }
        ensures cause { HasCause Failed ((D.state self.old.disk).faults + self.old.unreadable)
            ((D.state self.new.disk).faults + self.new.unreadable) result }
        ensures counted { ShowsFaults in_doubt ((D.state self.old.disk).faults + self.old.unreadable)
            ((D.state self.new.disk).faults + self.new.unreadable) result }

        ensures unread { IsSome self.old.kept → self.new.disk ≡ self.old.disk }
        ensures looks { Looks result (D.state self.old.disk) (D.state self.new.disk)
            self.old.kept self.new.kept self.old.unreadable self.new.unreadable }
    {
        self.read()?;
        match &self.kept {
            Some(kept) => Ok(kept.pages.moment(id, index)),
            None => Err(NotaryFail::NoMemory),
        }
    }

    fn mark(&mut self, id: u64, mark: Mark) -> Result<(), NotaryFail>
        ensures change { Answers (note id mark) result
            (book_state (D.state self.old.disk) self.old.asked self.old.unreadable)
            (book_state (D.state self.new.disk) self.new.asked self.new.unreadable) }
        ensures only { IsNotOutOfTurn result }
        ensures frame { GoesOn
            (book_state (D.state self.old.disk) self.old.asked self.old.unreadable)
            (book_state (D.state self.new.disk) self.new.asked self.new.unreadable) }
        ensures cause { HasCause Failed ((D.state self.old.disk).faults + self.old.unreadable)
            ((D.state self.new.disk).faults + self.new.unreadable) result }
        ensures counted { ShowsFaults in_doubt ((D.state self.old.disk).faults + self.old.unreadable)
            ((D.state self.new.disk).faults + self.new.unreadable) result }

        ensures durable { OnOk result (IsSettled (D.state self.new.disk)) }
        ensures images { WhereTold (D.state self.old.disk).reads (D.state self.new.disk).reads
            (LeavesOf (note id mark) (D.state self.old.disk) (D.state self.new.disk)) }
        ensures unread { IsSome self.old.kept → OnRefusal result (self.new.disk ≡ self.old.disk) }
        ensures alters { Alters result (D.state self.old.disk) (D.state self.new.disk)
            self.old.kept self.new.kept self.old.unreadable self.new.unreadable }
    {
        self.read()?;
        match self.kept.take() {
            Some(kept) => self.note_behind(kept, id, mark),
            None => Err(NotaryFail::NoMemory),
        }
    }

    fn mark_at(&mut self, id: u64, place: u32) -> Result<Option<Mark>, NotaryFail>
        ensures value { GivesMark id place result (book_state (D.state self.old.disk) self.old.asked self.old.unreadable) }
        ensures only { IsAsked result }
        ensures same { Unchanged
            (book_state (D.state self.old.disk) self.old.asked self.old.unreadable)
            (book_state (D.state self.new.disk) self.new.asked self.new.unreadable) }
        ensures asked { self.new.asked ≡ self.old.asked }
        ensures frame { GoesOn
            (book_state (D.state self.old.disk) self.old.asked self.old.unreadable)
            (book_state (D.state self.new.disk) self.new.asked self.new.unreadable) }
        ensures cause { HasCause Failed ((D.state self.old.disk).faults + self.old.unreadable)
            ((D.state self.new.disk).faults + self.new.unreadable) result }
        ensures counted { ShowsFaults in_doubt ((D.state self.old.disk).faults + self.old.unreadable)
            ((D.state self.new.disk).faults + self.new.unreadable) result }

        ensures unread { IsSome self.old.kept → self.new.disk ≡ self.old.disk }
        ensures looks { Looks result (D.state self.old.disk) (D.state self.new.disk)
            self.old.kept self.new.kept self.old.unreadable self.new.unreadable }
    {
        self.read()?;
        match &self.kept {
            Some(kept) => Ok(kept.pages.mark(id, place)),
            None => Err(NotaryFail::NoMemory),
        }
    }
}
