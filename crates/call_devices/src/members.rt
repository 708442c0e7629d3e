//! The notaries that a call names: each keeps a book, and all are one notary.

ghost use Rattle.std.specs.Prelude.{◌≤◌, length};

use crate::ballot::Ballot;
use disk_model::Disk;
use notary_book::Book;
use notary_link::{Answer, Mark, Name, Notary, NotaryFail, Seal};
use notary_quorum::{Quorum, Said, of_answer, of_count, of_done, of_mark, of_moment};
use std::alloc::{AllocError, Global};

/// A notary of a quorum. It hands its calls on, tells what the one below tells, and gives its answers to the ballot.
#[derive(Drop)]
pub struct Member<'a, N: Drop> {
    below: N,
    ballot: &'a Ballot,
    place: usize,
}

impl<'a, N: Drop> Member<'a, N> {
    pub fn into_below(self) -> N {
        self.below
    }

    fn say(&self, said: Said) {
        self.ballot.take(self.place, said);
    }
}

impl<'a, N: Notary + Drop> Notary for Member<'a, N> {
    ghost state = { λ m. N.state m.below };

    ghost asking_takes_memory = { N.asking_takes_memory };

    ghost limited = { λ m. N.limited m.below };

    ghost few_marks = { λ m. N.few_marks m.below };

    fn count(&mut self, id: u64) -> Result<u32, NotaryFail> {
        let answer = self.below.count(id);
        self.say(of_count(answer));
        answer
    }

    fn file(&mut self, id: u64, index: u32, moment: u64, seals: &[Seal]) -> Result<(), NotaryFail> {
        let answer = self.below.file(id, index, moment, seals);
        self.say(of_done(answer));
        answer
    }

    fn ask(&mut self, id: u64, name: Name, digest: &[u8; 32]) -> Result<Answer, NotaryFail> {
        let answer = self.below.ask(id, name, digest);
        self.say(of_answer(answer));
        answer
    }

    fn moment_of(&mut self, id: u64, index: u32) -> Result<Option<u64>, NotaryFail> {
        let answer = self.below.moment_of(id, index);
        self.say(of_moment(answer));
        answer
    }

    fn mark(&mut self, id: u64, mark: Mark) -> Result<(), NotaryFail> {
        let answer = self.below.mark(id, mark);
        self.say(of_done(answer));
        answer
    }

    fn mark_at(&mut self, id: u64, place: u32) -> Result<Option<Mark>, NotaryFail> {
        let answer = self.below.mark_at(id, place);
        self.say(of_mark(answer));
        answer
    }
}

/// A quorum of the notaries that keep these books.
pub fn quorum_of<'a, D: Disk + Drop>(
    alloc: Global,
    disks: Vec<D>,
    ballot: &'a Ballot,
) -> Result<Quorum<Member<'a, Book<D>>>, AllocError>
    requires some { 1 ≤ length disks.items }
    requires few { length disks.items ≤ 9 }
{
    let mut disks = disks;
    let mut members = Vec::new(alloc);
    'disks: while !disks.is_empty() {
        let member = Member {
            below: Book::new(alloc, disks.remove(0)),
            ballot,
            place: members.len(),
        };
        members.push(member)?;
    }
    Ok(Quorum::new(members))
}
