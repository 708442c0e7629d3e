//! What a drill keeps between two lines.

ghost use Rattle.std.specs.Prelude.{◌≡◌, ◌≤◌};
ghost use Rattle.timeline_model.specs.Scene.{nothing_yet};
ghost use Rattle.drill_core.specs.Drills.{IsAt, faults_of};

use disk_model::MemDisk;
use notary_link::{MemNotary, NotaryLimits};
use std::alloc::Global;
use store_world::World;

/// A crash that is to come: after so many changing calls, and it leaves the image of this choice.
#[derive(Clone, Copy, Debug, PartialEq, Eq)]
pub(crate) struct Crash {
    pub(crate) after: u32,
    pub(crate) choice: u64,
}

/// A disk and a notary in memory, a clock, the world of the last `init` line, and the crash that the
/// next line is under.
#[derive(Drop)]
pub(crate) struct Drill {
    pub(crate) alloc: Global,
    pub(crate) id: Option<u64>,
    pub(crate) world: World,
    pub(crate) disk: MemDisk,
    pub(crate) notary: MemNotary,
    pub(crate) clock: u64,
    pub(crate) crash: Option<Crash>,
}

impl Drill {
    /// No store, an empty disk, an empty notary with these limits, and the clock at 0.
    pub(crate) fn new(alloc: Global, limits: NotaryLimits) -> Drill
        requires few { limits.seals ≤ 4294967295 }
        ensures value { IsAt (nothing_yet limits) result }
        ensures faults { faults_of result ≡ 0 }
    {
        Drill {
            alloc,
            id: None,
            world: World::new(0),
            disk: MemDisk::new(alloc),
            notary: MemNotary::new(alloc, limits),
            clock: 0,
            crash: None,
        }
    }
}
