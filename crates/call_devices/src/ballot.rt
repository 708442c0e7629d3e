//! What the members of a quorum say call by call, and which of them stand out.

use notary_quorum::Said;
use std::cell::Cell;

/// As many members a quorum has at most.
const MOST: usize = 9;

/// Each member has it by reference.
#[derive(Drop)]
pub struct Ballot {
    members: usize,
    /// What was said in the call that is in progress.
    said: Cell<[Option<Said>; MOST]>,
    odd: Cell<[bool; MOST]>,
}

impl Ballot {
    pub fn new(members: usize) -> Ballot {
        Ballot {
            members,
            said: Cell::new([None; MOST]),
            odd: Cell::new([false; MOST]),
        }
    }

    /// What the member of this place says. A call ends with the last member.
    pub(crate) fn take(&self, place: usize, said: Said) {
        let mut all = self.said.get();
        if let Some(of_member) = all.get_mut(place) {
            *of_member = Some(said);
        }
        self.said.set(all);
        if place.saturating_add(1) == self.members {
            self.count(&all);
        }
    }

    fn count(&self, all: &[Option<Said>]) {
        let mut odd = self.odd.get();
        for (is_odd, said) in odd.iter_mut().zip(all) {
            let same = all.iter().filter(|other| **other == *said).count();
            *is_odd = *is_odd || same <= self.members / 2;
        }
        self.odd.set(odd);
    }

    /// Whether the member of this place said in some call what no more than half of them did.
    pub fn is_odd(&self, place: usize) -> bool {
        self.odd.get().get(place).copied().unwrap_or(false)
    }
}
