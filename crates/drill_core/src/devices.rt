//! What a crash does to the devices.

ghost use Rattle.std.specs.Prelude.{◌≡◌, ◌≢◌, ◌∷◌, [], OnOk, IfOk, codes};
ghost use Rattle.store_world.specs.Answers.{said};
ghost use Rattle.drill_core.specs.Drills.{crash_of, NoneFails};
ghost use Rattle.drill_core.specs.Devices.{listed_filings, LeavesNone, WillStop, WillPass, EntersAnew, IsRestartedBy};

use crate::machine::{Crash, Drill};
use crate::saying::say;
use std::alloc::{AllocError, Global};
use store_engine::StoreFail;
use store_world::{Answered, LineFail, World};

/// The list of one number.
fn only(alloc: Global, number: u64) -> Result<Vec<u64>, AllocError>
    ensures value { IfOk result (λ listed. listed.items ≡ number ∷ []) }
{
    let mut listed = Vec::new(alloc);
    listed.push(number)?;
    Ok(listed)
}

/// The number of the notary's call that is to fail, where there is one.
fn filings_to_fail(alloc: Global, after: u32, before: u64) -> Result<Vec<u64>, AllocError>
    ensures value { IfOk result (λ listed. listed.items ≡ listed_filings after before) }
{
    let after = after as u64;
    if before <= after {
        only(alloc, after - before + 1)
    } else {
        Ok(Vec::new(alloc))
    }
}

/// A machine stands also where there is no store, or an old one.
fn entered(fail: StoreFail) -> Result<(), AllocError>
    ensures value { OnOk result (LeavesNone fail) }
{
    match fail {
        StoreFail::NotAStore | StoreFail::OldFormat => Ok(()),
        _ => Err(AllocError),
    }
}

impl Drill {
    /// Lets the call fail that the crash doesn't let pass, where so many of the disk come before those of
    /// the notary. The disk is settled, so the crash empties its record alone. Without a crash none fails.
    pub(crate) fn let_fail(&mut self, crash: Option<Crash>, before: u64) -> Result<(), AllocError>
        ensures value { OnOk result (NoneFails self.old → WillStop (crash_of crash) before self.old self.new) }
    {
        let Some(Crash { after, .. }) = crash else {
            return Ok(());
        };
        let changes = only(self.alloc, after as u64 + 1)?;
        let filings = filings_to_fail(self.alloc, after, before)?;
        self.disk.crash(1)?;
        self.disk.failing(Vec::new(self.alloc), changes);
        self.notary.failing(Vec::new(self.alloc), filings);
        Ok(())
    }

    /// Lets all calls pass from now on.
    pub(crate) fn let_pass(&mut self)
        ensures value { WillPass self.old self.new }
    {
        self.disk
            .failing(Vec::new(self.alloc), Vec::new(self.alloc));
        self.notary
            .failing(Vec::new(self.alloc), Vec::new(self.alloc));
    }

    /// Enters the store of the drill's id anew, if there is one that lines go over, without any session or audit.
    pub(crate) fn enter_anew(&mut self) -> Result<(), AllocError>
        ensures value { OnOk result (NoneFails self.old → EntersAnew self.old self.new) }
    {
        let Some(id) = self.id else {
            return Ok(());
        };
        self.world = World::new(id);
        match self.world.enter(self.alloc, &mut self.disk) {
            Ok(()) => Ok(()),
            Err(fail) => entered(fail),
        }
    }

    /// A fault is the stop of the crash that the line is under.
    pub(crate) fn restart_after(
        &mut self,
        fail: LineFail,
        crash: Option<Crash>,
    ) -> Result<Answered, AllocError>
        ensures value { OnOk result (IsRestartedBy (crash_of crash) self.old self.new) }
        ensures reply { IfOk result (λ answered. answered ≡ said (codes "crashed")) }
        ensures fault { OnOk result (fail ≢ LineFail.NoMemory) }
    {
        match fail {
            LineFail::NoMemory => Err(AllocError),
            LineFail::DiskFault | LineFail::NotaryFault => self.restart(crash),
        }
    }

    /// Leaves what this crash leaves, with no failure listed. Without a crash no call fails.
    pub(crate) fn restart(&mut self, crash: Option<Crash>) -> Result<Answered, AllocError>
        ensures value { OnOk result (IsRestartedBy (crash_of crash) self.old self.new) }
        ensures reply { IfOk result (λ answered. answered ≡ said (codes "crashed")) }
    {
        let Some(crash) = crash else {
            return Err(AllocError);
        };
        self.disk.crash(crash.choice)?;
        self.notary
            .failing(Vec::new(self.alloc), Vec::new(self.alloc));
        say(self.alloc, b"crashed")
    }
}
