//! A file of gated records that is open for appending.

ghost use Rattle.std.specs.Prelude.{◌≡◌, ℕ, List, false, length, IsTrue, ◌↔◌, if◌then◌else◌, IsErrOf, OnErr};
ghost use Rattle.outside_words.specs.Faults.{HasCause, HidesNoFault};
ghost use Rattle.outside_words.specs.Told.{WhereTold};
ghost use Rattle.disk_words.specs.Disk.{GoesOn};
ghost use Rattle.byte_grammar.specs.Gated.{FitsRecord};
ghost use Rattle.txn_journal.specs.declared.fail.JournalFail.TheVariants.{DiskFault, StoreFull, Closed};
ghost use Rattle.txn_journal.specs.Append.{append_calls, IsRefusedAsFull, StandsAfter, Closes, Appends};

use crate::append::{add, record_bytes};
use crate::{JournalFail, Shape};
use disk_model::Disk;
use std::alloc::Global;
use std::marker::{Model, PhantomData};

/// Where the next record goes. It keeps nothing of the file but that, so each call on it is lent the
/// disk, whose bytes have to be as the last call left them.
#[derive(Drop)]
pub struct Journal<S: Shape> {
    end: u64,
    gate_is_open: bool,
    is_closed: bool,
    shape: PhantomData<S>,
}

impl<S: Shape> Model for Journal<S> {
    ghost use Rattle.txn_journal.specs.Held.{Standing};

    ghost Value = { Standing };

    ghost view = { λ j. record { end = j.end; gate_is_open = j.gate_is_open; is_closed = j.is_closed } };
}

impl<S: Shape> Journal<S> {
    /// A journal whose next gate stands at this place.
    pub(crate) fn standing(end: u64, gate_is_open: bool) -> Journal<S>
        ensures value { result ≡ record { end = end; gate_is_open = gate_is_open; is_closed = false } }
    {
        Journal {
            end,
            gate_is_open,
            is_closed: false,
            shape: PhantomData,
        }
    }

    /// How many changing calls an append makes that is carried out.
    pub fn calls(&self) -> u8
        ensures value { result ≡ (if self.now.gate_is_open then 6 else 4) }
        ensures each { (payload : List ℕ) → result ≡ length (append_calls self.now payload) }
    {
        if self.gate_is_open { 6 } else { 4 }
    }

    /// The place of the gate behind all payloads.
    pub fn end(&self) -> u64
        ensures value { result ≡ self.now.end }
    {
        self.end
    }

    /// Whether a call has failed since the file was opened.
    pub fn is_closed(&self) -> bool
        ensures value { result ≡ self.now.is_closed }
    {
        self.is_closed
    }

    /// Adds a payload behind all others. `StoreFull` comes where the next gate would reach the limit,
    /// and `Closed` behind an earlier failure of the disk, which closes the journal until the file is
    /// opened anew. A crash at any moment leaves the old payloads, or these and the new one; after Ok
    /// it leaves both.
    pub fn append<D: Disk>(
        &mut self,
        alloc: Global,
        disk: &mut D,
        payload: &[u8],
    ) -> Result<(), JournalFail>
        requires fits { FitsRecord S.shape payload.now }
        ensures closed { IsErrOf result Closed ↔ IsTrue self.old.is_closed }
        ensures store_full { IsErrOf result StoreFull ↔ IsRefusedAsFull S.WHOLE self.old payload.now }
        ensures moves { StandsAfter payload.now result self.old self.new }
        ensures closes { Closes D.takes_memory result self.old.is_closed self.new.is_closed }
        ensures kept { OnErr result (self.new ≡ self.old → disk.new ≡ disk.old) }
        ensures told { WhereTold (D.state disk.old).reads (D.state disk.new).reads
            (Appends S.is_head S.shape self.old payload.now result (D.state disk.old) (D.state disk.new)) }
        ensures frame { GoesOn (D.state disk.old) (D.state disk.new) }
        ensures cause { HasCause DiskFault (D.state disk.old).faults (D.state disk.new).faults result }
        ensures counted { HidesNoFault (D.state disk.old).faults (D.state disk.new).faults result }
    {
        if self.is_closed {
            return Err(JournalFail::Closed);
        }
        let next = self.end.saturating_add(5 + payload.len() as u64);
        if next >= S::WHOLE {
            return Err(JournalFail::StoreFull);
        }
        let record = record_bytes(alloc, payload)?;
        match add(disk, self.gate_is_open, self.end, &record) {
            Ok(()) => {
                self.end = next;
                self.gate_is_open = false;
                Ok(())
            }
            Err(fail) => {
                self.is_closed = true;
                Err(JournalFail::from(fail))
            }
        }
    }
}
