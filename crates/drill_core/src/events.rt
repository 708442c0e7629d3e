//! The lines that a drill has besides those of a world.

ghost use Rattle.std.specs.Prelude.{◌≡◌, ◌≤◌, ◌+◌, Some, length, OnOk, IfOk, codes};
ghost use Rattle.disk_words.specs.Disk.{written};
ghost use Rattle.tuple_bytes.specs.Spelling.{FitsHeader};
ghost use Rattle.stmt_text.specs.Fits.{FitsEvent};
ghost use Rattle.timeline_model.specs.Lines as lines;
ghost use Rattle.timeline_model.specs.Lines.{brings, inits, header_at, altered, shortened};
ghost use Rattle.timeline_model.specs.Timeline.{under};
ghost use Rattle.drill_core.specs.Drills.{bare_of, crash_of, HasFewFaults, NoneFails, IsLeft, IsAt, IsBehind};
ghost use Rattle.drill_core.specs.Devices.{Holds, StopsBy};
ghost use Rattle.drill_core.specs.Taken.{FromScene, Follows, making};

use crate::machine::{Crash, Drill};
use crate::saying::{refuse, say, say_ready};
use disk_model::MemDisk;
use segment_file::{SegmentFail, create_segmented};
use std::alloc::{AllocError, Global};
use stmt_text::Event;
use store_world::Answered;
use tuple_bytes::{Blob, Header, MAX_MOMENT};

/// The bytes with a range replaced.
fn with_range(alloc: Global, old: &[u8], place: usize, bytes: &[u8]) -> Result<Vec<u8>, AllocError>
    requires fits { place + length bytes.now ≤ length old.now }
    ensures value { IfOk result (λ next. next.items ≡ written place bytes.now old.now) }
{
    let mut next = old[..place].to_vec(alloc)?;
    next.extend_from_slice(bytes)?;
    next.extend_from_slice(&old[place + bytes.len()..])?;
    Ok(next)
}

impl Drill {
    /// Brings an event about, or stops it. Only an `init` line makes changing calls.
    pub(crate) fn bring(
        &mut self,
        event: &Event,
        crash: Option<Crash>,
    ) -> Result<Answered, AllocError>
        requires fits { FitsEvent event.now }
        requires few { HasFewFaults self.old }
        ensures value { FromScene self.old result (λ t answered.
            Follows (IsBehind (crash_of crash)) (under (crash_of crash) t (brings t event.now)) answered self.old self.new) }
    {
        match event {
            Event::Init { id, width, k, algs } => self.init(*id, *width, *k, *algs, crash),
            Event::Crash { after, choice } => self.set_crash(*after, *choice),
            Event::Alter { place, bytes } => self.alter(*place, bytes),
            Event::Cut { length } => self.cut(*length),
        }
    }

    /// Sets the clock.
    pub(crate) fn set_clock(&mut self, moment: u64) -> Result<Answered, AllocError>
        ensures value { FromScene self.old result (λ t answered.
            Follows IsAt (lines.says (record t { clock = moment }) (codes "ok")) answered self.old self.new) }
    {
        self.clock = moment;
        say(self.alloc, b"ok")
    }

    /// The next line is under this crash.
    pub(crate) fn set_crash(&mut self, after: u32, choice: u64) -> Result<Answered, AllocError>
        ensures value { FromScene self.old result (λ t answered.
            Follows IsAt (lines.says (record t { crash = Some (record { after = after; choice = choice }) }) (codes "ok")) answered self.old self.new) }
    {
        self.crash = Some(Crash { after, choice });
        say(self.alloc, b"ok")
    }

    /// The disk has these bytes, and the store is entered anew.
    fn hold(&mut self, bytes: Vec<u8>) -> Result<(), AllocError>
        ensures value { OnOk result (NoneFails self.old → Holds bytes.items self.old self.new) }
    {
        self.disk = MemDisk::holding(self.alloc, bytes);
        self.enter_anew()
    }

    /// These bytes stand at the place from then on.
    pub(crate) fn alter(&mut self, place: u64, bytes: &Blob) -> Result<Answered, AllocError>
        ensures value { FromScene self.old result (λ t answered. Follows IsAt (altered t place bytes.now) answered self.old self.new) }
    {
        let old = self.disk.bytes();
        let new = bytes.as_slice();
        let room = old.len() as u64;
        if room < place || room - place < new.len() as u64 {
            return refuse(self.alloc, b"NoPlace");
        }
        let next = with_range(self.alloc, old, place as usize, new)?;
        self.hold(next)?;
        say(self.alloc, b"ok")
    }

    /// The disk is shortened.
    pub(crate) fn cut(&mut self, length: u64) -> Result<Answered, AllocError>
        ensures value { FromScene self.old result (λ t answered. Follows IsAt (shortened t length) answered self.old self.new) }
    {
        let old = self.disk.bytes();
        if (old.len() as u64) < length {
            return refuse(self.alloc, b"NoPlace");
        }
        let next = old[..length as usize].to_vec(self.alloc)?;
        self.hold(next)?;
        say(self.alloc, b"ok")
    }

    /// Makes a store that begins now, or stops that. Either way the store of this id is entered.
    fn init(
        &mut self,
        id: u64,
        width: u32,
        k: u8,
        algs: u8,
        crash: Option<Crash>,
    ) -> Result<Answered, AllocError>
        requires fits { FitsEvent (Event.Init id width k algs) }
        requires few { HasFewFaults self.old }
        ensures value { FromScene self.old result (λ t answered.
            Follows (IsBehind (crash_of crash)) (under (crash_of crash) t (brings t (Event.Init id width k algs))) answered self.old self.new) }
    {
        self.id = Some(id);
        let answered = self.make(id, width, k, algs, crash)?;
        self.enter_anew()?;
        Ok(answered)
    }

    /// Makes a store that begins now, or stops that.
    fn make(
        &mut self,
        id: u64,
        width: u32,
        k: u8,
        algs: u8,
        crash: Option<Crash>,
    ) -> Result<Answered, AllocError>
        requires fits { FitsEvent (Event.Init id width k algs) }
        requires few { HasFewFaults self.old }
        ensures value { NoneFails self.old → IfOk result (λ answered. let t = bare_of self.old in
            Follows IsLeft (under (crash_of crash) t (inits t (header_at id t.clock width k algs))) answered self.old self.new) }
    {
        if self.clock > MAX_MOMENT {
            return refuse(self.alloc, b"TooLate");
        }
        let header = Header {
            id,
            epoch: self.clock,
            width,
            k,
            algs,
        };
        self.let_fail(crash, 0)?;
        self.make_store(&header, crash)
    }

    /// Makes a store with this header where the disk is free, over devices that may stop.
    fn make_store(&mut self, header: &Header, crash: Option<Crash>) -> Result<Answered, AllocError>
        requires fits { FitsHeader header.now }
        ensures value { StopsBy (crash_of crash) 0 self.old → HasFewFaults self.old → IfOk result (λ answered. let t = bare_of self.old in
            Follows IsLeft (under (crash_of crash) t (making t header.now)) answered self.old self.new) }
    {
        match create_segmented(&mut self.disk, header) {
            Ok(()) => {
                self.let_pass();
                say_ready(self.alloc, header.id)
            }
            Err(SegmentFail::AlreadyThere) => {
                self.let_pass();
                refuse(self.alloc, b"AlreadyThere")
            }
            Err(SegmentFail::DiskFault) => self.restart(crash),
            Err(_) => Err(AllocError),
        }
    }
}
