//! Reading a gated file record by record.

ghost use Rattle.std.specs.Prelude.{◌≡◌, ◌==◌, ◌≤◌, ◌+◌, false, IfOk, IfSome, IsTrue, OnOk, OnErr, ◌<◌, take, slice_index};
ghost use Rattle.outside_words.specs.Faults.{HasCause, HidesNoFault};
ghost use Rattle.disk_words.specs.declared.DiskFail.TheVariants.{Failed};
ghost use Rattle.disk_words.specs.Disk.{Unchanged, GoesOn};
ghost use Rattle.byte_grammar.specs.Gated.{open_gate};
ghost use Rattle.txn_journal.specs.Window.{seen_by, room_of};
ghost use Rattle.txn_journal.specs.Reading.{ReadsNext, Moves, IsSeenIn, IsFilled, StepsOver, StandsAt, IsAtFirst, ahead, is_closed_ahead, head_of};

use crate::gate::OPEN;
use crate::payload::payload_of;
use crate::window::Window;
use crate::{Journal, Shape};
use disk_model::{Disk, DiskFail};
use std::alloc::{AllocError, Global};
use std::marker::{Model, PhantomData};

/// A reader of the records of a file, which stands at one of their gates.
#[derive(Drop)]
pub struct Records<S: Shape> {
    window: Window,
    place: u64,
    // no gate reaches it
    limit: u64,
    // of the payload that was read last, in the window
    from: usize,
    size: usize,
    shape: PhantomData<S>,
}

impl<S: Shape> Model for Records<S> {
    ghost use Rattle.std.specs.Prelude.{◌≤◌, ◌<◌, ◌+◌, take, drop};
    ghost use Rattle.byte_grammar.specs.Gated.{open_gate};
    ghost use Rattle.txn_journal.specs.Reading.{Reading};
    ghost use Rattle.txn_journal.specs.Window.{seen_by, room_of};

    ghost Value = { Reading };

    ghost view = { λ r. record {
      place = r.place;
      limit = r.limit;
      payload = take r.size (drop r.from (seen_by r.window));
      begin = r.window.begin;
      seen = seen_by r.window;
    } };

    ghost invariant = { λ r. (r.window.begin ≤ r.place) × (r.from + r.size ≤ r.window.filled)
        × (S.shape.max_payload + 6 ≤ room_of r.window) × (64 < room_of r.window) };
}

impl<S: Shape> Records<S> {
    /// Stands at a gate of a file, before anything is read. No gate reaches the limit.
    pub fn standing(alloc: Global, place: u64, limit: u64) -> Result<Records<S>, AllocError>
        ensures value { IfOk result (StandsAt place limit) }
    {
        let room = (2 * (S::PAYLOAD as usize + 6)).max(65);
        let window = Window::new(alloc, room)?;
        Ok(Records {
            window,
            place,
            limit,
            from: 0,
            size: 0,
            shape: PhantomData,
        })
    }

    /// Stands at the first record of a file, before anything is read.
    pub fn at_first(alloc: Global) -> Result<Records<S>, AllocError>
        ensures value { IfOk result (IsAtFirst S.shape.max_file) }
    {
        Records::standing(alloc, 64, S::WHOLE)
    }

    /// Reads the head of the file, and with it what stands behind it. Nothing comes back where there is
    /// no head of the shape. The reader stays where it stands.
    pub fn read_head<D: Disk>(&mut self, disk: &mut D) -> Result<Option<[u8; 64]>, DiskFail>
        ensures value { IfSome (D.state disk.old).reads (λ bytes.
            IfOk result (λ head. head ≡ head_of S.is_head bytes)) }
        ensures good { IfOk result (λ head. IfSome head (λ h. IsTrue (S.is_head h))) }
        ensures seen { IfSome (D.state disk.old).reads (λ bytes. IsSeenIn bytes self.new) }
        ensures place { self.new.place ≡ self.old.place }
        ensures limit { self.new.limit ≡ self.old.limit }
        ensures same { Unchanged (D.state disk.old) (D.state disk.new) }
        ensures frame { GoesOn (D.state disk.old) (D.state disk.new) }
        ensures cause { HasCause Failed (D.state disk.old).faults (D.state disk.new).faults result }
        ensures counted { HidesNoFault (D.state disk.old).faults (D.state disk.new).faults result }
    {
        self.from = 0;
        self.size = 0;
        self.window.refill(disk, 0)?;
        let head = head_of::<S>(self.window.seen_from(0));
        Ok(head)
    }

    /// The payload of the record that was read last: nothing before the first and after a refusal.
    pub fn payload(&self) -> &[u8]
        ensures value { result.now ≡ self.now.payload }
    {
        &self.window.buffer[self.from..self.from + self.size]
    }

    /// The place of the gate of the next record.
    pub fn place(&self) -> u64
        ensures value { result ≡ self.now.place }
    {
        self.place
    }

    /// Whether the gate at the place is open, as far as it is seen. At the end of the records it is.
    pub fn is_at_open_gate(&self) -> bool
        ensures value { result ≡ (slice_index (ahead self.now) 0 == open_gate) }
    {
        self.window.seen_from(self.place).first() == Some(&OPEN)
    }

    /// Whether the gate at the place is seen, and is closed. No record stands at such a gate, so the file
    /// need not be looked at once more.
    fn is_at_closed_gate(&self) -> bool
        ensures value { result ≡ is_closed_ahead self.now }
    {
        let ahead = self.window.seen_from(self.place);
        !ahead.is_empty() && ahead[0] != OPEN
    }

    /// A journal that stands at the place, so behind all payloads once there is no next record.
    pub fn journal(&self) -> Journal<S>
        ensures value { result ≡ record { end = self.now.place; gate_is_open = (slice_index (ahead self.now) 0 == open_gate); is_closed = false } }
    {
        Journal::standing(self.place, self.is_at_open_gate())
    }

    /// Reads the next record, and answers whether there is one. At the end it stands at the gate that
    /// ends the records. After a refusal it stands where it stood.
    pub fn advance<D: Disk>(&mut self, disk: &mut D) -> Result<bool, DiskFail>
        ensures value { IfSome (D.state disk.old).reads (λ bytes. IsSeenIn bytes self.old
            → IfOk result (λ found. ReadsNext S.shape bytes self.old found self.new)) }
        ensures seen { IfSome (D.state disk.old).reads (λ bytes.
            IsSeenIn bytes self.old → IsSeenIn bytes self.new) }
        ensures moves { IfOk result (λ found. Moves S.shape self.old found self.new) }
        ensures err { OnErr result (self.new.place ≡ self.old.place) }
        ensures limit { self.new.limit ≡ self.old.limit }
        ensures same { Unchanged (D.state disk.old) (D.state disk.new) }
        ensures frame { GoesOn (D.state disk.old) (D.state disk.new) }
        ensures cause { HasCause Failed (D.state disk.old).faults (D.state disk.new).faults result }
        ensures counted { HidesNoFault (D.state disk.old).faults (D.state disk.new).faults result }
    {
        if self.step() {
            return Ok(true);
        }
        if self.is_at_closed_gate() {
            return Ok(false);
        }
        self.refill(disk)?;
        let found = self.step();
        Ok(found)
    }

    /// Goes over the record at the place, where it is seen.
    fn step(&mut self) -> bool
        ensures steps { StepsOver S.shape self.old result self.new }
        ensures moves { Moves S.shape self.old result self.new }
    {
        let place = self.place;
        let ahead = self.window.seen_from(place);
        match payload_of::<S>(place, self.limit, ahead) {
            Some(payload) => {
                let size = payload.len();
                self.from = (place + 5 - self.window.begin) as usize;
                self.size = size;
                self.place = place + 5 + size as u64;
                true
            }
            None => false,
        }
    }

    /// Looks at the file from the place on.
    fn refill<D: Disk>(&mut self, disk: &mut D) -> Result<(), DiskFail>
        ensures filled { IfSome (D.state disk.old).reads (λ bytes.
            OnOk result (IsFilled S.shape bytes self.new)) }
        ensures seen { IfSome (D.state disk.old).reads (λ bytes. IsSeenIn bytes self.new) }
        ensures place { self.new.place ≡ self.old.place }
        ensures limit { self.new.limit ≡ self.old.limit }
        ensures same { Unchanged (D.state disk.old) (D.state disk.new) }
        ensures frame { GoesOn (D.state disk.old) (D.state disk.new) }
        ensures cause { HasCause Failed (D.state disk.old).faults (D.state disk.new).faults result }
        ensures counted { HidesNoFault (D.state disk.old).faults (D.state disk.new).faults result }
    {
        self.from = 0;
        self.size = 0;
        self.window.refill(disk, self.place)?;
        Ok(())
    }
}

/// The head that stands at the front, with a gate behind it.
fn head_of<S: Shape>(bytes: &[u8]) -> Option<[u8; 64]>
    ensures value { result ≡ head_of S.is_head bytes.now }
    ensures good { IfSome result (λ h. IsTrue (S.is_head h)) }
{
    let (head, rest) = bytes.split_first_chunk::<64>()?;
    if rest.is_empty() || !S::head(head) {
        return None;
    }
    Some(*head)
}
