//! Storing a policy, by which the eras and the chains turn once it is durable.

ghost use Rattle.std.specs.Prelude.{◌≡◌, ◌≤◌, ℕ, length, IfErr, IsErrOf, IsSome};
ghost use Rattle.outside_words.specs.Faults.{HasCause};
ghost use Rattle.outside_words.specs.Shown.{ShowsFaults};
ghost use Rattle.outside_words.specs.Told.{WhereTold};
ghost use Rattle.disk_words.specs.Disk.{Unchanged, GoesOn};
ghost use Rattle.tuple_bytes.specs.declared.item.Item.TheVariants as items;
ghost use Rattle.tuple_bytes.specs.Limits.{max_exponent, max_algorithms};
ghost use Rattle.tuple_bytes.specs.Spelling.{spell_policy};
ghost use Rattle.segment_file.specs.Append.{append_calls};
ghost use Rattle.store_engine.specs.declared.fail.StoreFail.TheVariants.{DiskFault, NoMemory};
ghost use Rattle.store_engine.specs.Fail.{closes};
ghost use Rattle.store_engine.specs.Refusals.{tail_of, item_fault};
ghost use Rattle.store_engine.specs.Causes.{IsRefusedBy, IsOfAppending};
ghost use Rattle.store_engine.specs.Commits.{with_item, shut, StandsAfter, Adds};

use super::Store;
use crate::StoreFail;
use crate::next_item::NextItem;
use disk_model::Disk;
use std::alloc::Global;

impl Store {
    /// Stores a policy: from this tile on, of which this is the first granule, a tile has 2 to `k` granules and the
    /// chains of these algorithms. Where it isn't the next era it has no effect. Once it is durable nothing takes memory.
    pub fn policy<D: Disk>(
        &mut self,
        alloc: Global,
        disk: &mut D,
        tile: u32,
        granule: u32,
        k: u8,
        algs: u8,
    ) -> Result<(), StoreFail>
        requires k { k ≤ max_exponent }
        requires algs { algs ≤ max_algorithms }
        ensures refused { IsRefusedBy
            (item_fault (tail_of self.old) self.old.at.is_closed (items.Policy tile granule k algs)) result }
        ensures only { IfErr result IsOfAppending }
        ensures stands { StandsAfter result self.old
            (with_item self.old (items.Policy tile granule k algs)) self.new }
        ensures kept { IsErrOf result NoMemory → self.new ≡ shut self.old }
        ensures same { IsSome (item_fault (tail_of self.old) self.old.at.is_closed (items.Policy tile granule k algs))
            → Unchanged (D.state disk.old) (D.state disk.new) }
        ensures told { WhereTold (D.state disk.old).reads (D.state disk.new).reads
            (Adds (items.Policy tile granule k algs) result self.old self.new
            (D.state disk.old) (D.state disk.new)) }
        ensures frame { GoesOn (D.state disk.old) (D.state disk.new) }
        ensures cause { HasCause DiskFault (D.state disk.old).faults (D.state disk.new).faults result }
        ensures counted { ShowsFaults closes (D.state disk.old).faults (D.state disk.new).faults result }
    {
        let policy = NextItem::Policy {
            tile,
            granule,
            k,
            algs,
        };
        self.store_item(alloc, disk, &policy)
    }

    /// How many changing calls the append of a policy makes that is carried out.
    pub fn policy_calls(&self) -> u8
        ensures each { (tile granule k algs : ℕ)
            → result ≡ length (append_calls self.now.at (spell_policy tile granule k algs)) }
    {
        self.file.calls(11)
    }
}
