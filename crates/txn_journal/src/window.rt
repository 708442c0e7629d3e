//! A part of a file, which is read a buffer at a time.

ghost use Rattle.std.specs.Prelude.{◌≡◌, ◌≤◌, ◌-◌, [], length, take, drop, IfOk, IfSome, OnOk, OnErr};
ghost use Rattle.outside_words.specs.Faults.{HasCause, HidesNoFault};
ghost use Rattle.disk_words.specs.declared.DiskFail.TheVariants.{Failed};
ghost use Rattle.disk_words.specs.Disk.{Unchanged, GoesOn};

use disk_model::{Disk, DiskFail};
use std::alloc::{AllocError, Global};

/// What stands in a file from a place on, as far as there is room for it.
#[derive(Drop)]
pub struct Window {
    pub begin: u64,
    pub buffer: Vec<u8>,
    pub filled: usize,
    ghost within: { filled ≤ length buffer.items },
}

impl Window {
    ghost use Rattle.txn_journal.specs.Window.{seen_by, room_of};

    /// Nothing is seen yet.
    pub fn new(alloc: Global, room: usize) -> Result<Window, AllocError>
        ensures room { IfOk result (λ w. room_of w ≡ room) }
        ensures begin { IfOk result (λ w. w.begin ≡ 0) }
        ensures seen { IfOk result (λ w. seen_by w ≡ []) }
    {
        let buffer = vec![in alloc; 0; room]?;
        Ok(Window {
            begin: 0,
            buffer,
            filled: 0,
        })
    }

    /// Reads from a place on, with one call. After a refusal nothing is seen.
    pub fn refill<D: Disk>(&mut self, disk: &mut D, place: u64) -> Result<(), DiskFail>
        ensures value { IfSome (D.state disk.old).reads (λ bytes.
            OnOk result (seen_by self.new ≡ take (room_of self.old) (drop place bytes))) }
        ensures err { OnErr result (seen_by self.new ≡ []) }
        ensures begin { self.new.begin ≡ place }
        ensures room { room_of self.new ≡ room_of self.old }
        ensures same { Unchanged (D.state disk.old) (D.state disk.new) }
        ensures frame { GoesOn (D.state disk.old) (D.state disk.new) }
        ensures cause { HasCause Failed (D.state disk.old).faults (D.state disk.new).faults result }
        ensures counted { HidesNoFault (D.state disk.old).faults (D.state disk.new).faults result }
    {
        self.begin = place;
        self.filled = 0;
        self.filled = disk.read_at(place, &mut self.buffer)?;
        Ok(())
    }

    /// What is seen from a place on.
    pub fn seen_from(&self, place: u64) -> &[u8]
        requires { self.now.begin ≤ place }
        ensures value { result.now ≡ drop (place - self.now.begin) (seen_by self.now) }
    {
        let passed = (place - self.begin) as usize;
        let seen = &self.buffer[..self.filled];
        if passed > seen.len() {
            return &[];
        }
        &seen[passed..]
    }
}
