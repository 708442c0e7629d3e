//! A store that is open.

ghost use Rattle.std.specs.Prelude.{◌≡◌, ◌+◌, ◌<◌, ◌≤◌, ℕ, None, true, false, length, IfOk, IsOk, IfErr, IfSome, IsErrOf, IsSome, MatchOption, MatchResult, if◌then◌else◌};
ghost use Rattle.std.specs.List.{All};
ghost use Rattle.outside_words.specs.Faults.{HasCause, HidesNoFault};
ghost use Rattle.outside_words.specs.Shown.{ShowsFaults};
ghost use Rattle.outside_words.specs.Told.{WhereTold};
ghost use Rattle.disk_words.specs.Disk.{Unchanged, GoesOn};
ghost use Rattle.tuple_bytes.specs.declared.item.Item.TheVariants as items;
ghost use Rattle.tuple_bytes.specs.Writing.{IsCounted, IsCountedOp, op_count_of};
ghost use Rattle.tuple_bytes.specs.Limits.{max_ops, max_payload};
ghost use Rattle.tuple_bytes.specs.Spelling.{FitsHeader, Spells, spell_frontier};
ghost use Rattle.history_model.specs.Stored.{max_file, stored, format_of};
ghost use Rattle.history_model.specs.History.{MayFollow, txn_in};
ghost use Rattle.segment_file.specs.Append.{append_calls};
ghost use Rattle.store_engine.specs.declared.fail.StoreFail.TheVariants.{Closed, DiskFault, NoMemory, StoreFull};
ghost use Rattle.store_engine.specs.Opened.{IsOpenOn};
ghost use Rattle.store_engine.specs.Fail.{closes};
ghost use Rattle.store_engine.specs.Taking.{HaveReached};
ghost use Rattle.store_engine.specs.Refusals.{tail_of, next_txn, commit_fault, frontier_fault, item_fault, is_back, is_full, where_true};
ghost use Rattle.store_engine.specs.Causes.{IsNextMoment, IsRefusedBy, IsOfOpening, IsNoStore};
ghost use Rattle.store_engine.specs.Contents.{lent_item};
ghost use Rattle.store_engine.specs.Commits.{with_txn, with_item, frontier_at, shut, StandsAfter, Adds};

mod chained;
mod turning;

use crate::StoreFail;
use crate::appending::append;
use crate::chaining::turn_chained;
use crate::contents::Contents;
use crate::next_item::NextItem;
use crate::opening::open_file;
use chain_state::Chains;
use disk_model::Disk;
use policy_eras::Eras;
use segment_file::SegmentFile;
use std::alloc::Global;
use std::marker::Model;
use step_count::{Ledger, Steps};
use tt_table::Tables;
use tuple_bytes::{Header, MAX_FILE, MAX_GRANULES, MAX_OPS, Ops, granule, txn_size};

/// A store that is open: what its file holds, as tables, and where the next record goes. Each call on
/// it is lent the disk, whose bytes have to be as the last call left them.
#[derive(Drop)]
pub struct Store {
    header: Header,
    contents: Contents,
    chains: Option<Chains>,
    file: SegmentFile,
    is_closed: bool,
    ghost header_fits: { FitsHeader header },
    ghost few: { contents.count < file.end },
    ghost in_time: { contents.tables.last ≤ contents.last },
    ghost chained: { HaveReached header contents.eras contents.last chains },
    ghost closed_too: { file.is_closed ≡ true → is_closed ≡ true },
}

impl Model for Store {
    ghost use Rattle.std.specs.Option.{option_map};
    ghost use Rattle.chain_state.specs.Chained.{without_room};
    ghost use Rattle.store_engine.specs.Opened.{Opened};

    ghost Value = { Opened };

    ghost view = { λ s. record {
      header = s.header;
      count = s.contents.count;
      last = s.contents.last;
      tables = s.contents.tables;
      eras = s.contents.eras;
      chains = option_map without_room s.chains;
      at = record s.file { is_closed = s.is_closed };
    } };
}

impl Store {
    /// Opens the store of this id.
    pub fn open_store<D: Disk>(alloc: Global, disk: &mut D, id: u64) -> Result<Store, StoreFail>
        ensures value { IfSome (D.state disk.old).reads (λ bytes. MatchResult result
            (λ s. IsOpenOn s (stored bytes).items bytes)
            (IsNoStore id (stored bytes).header (format_of bytes))) }
        ensures fresh { IfOk result (λ s. s.at.is_closed ≡ false) }
        ensures id { IfOk result (λ s. s.header.id ≡ id) }
        ensures none_other { IfErr result IsOfOpening }
        ensures same { Unchanged (D.state disk.old) (D.state disk.new) }
        ensures frame { GoesOn (D.state disk.old) (D.state disk.new) }
        ensures cause { HasCause DiskFault (D.state disk.old).faults (D.state disk.new).faults result }
        ensures counted { HidesNoFault (D.state disk.old).faults (D.state disk.new).faults result }
    {
        match open_file(alloc, disk, id) {
            Ok((header, replayed)) => Ok(Store {
                header,
                contents: replayed.contents,
                chains: replayed.chains,
                file: replayed.file,
                is_closed: false,
            }),
            Err(fail) => Err(fail),
        }
    }

    /// Stores these operations as one transaction of these clock seconds, and answers its number.
    /// The refusals come in the order of `commit_fault`; a fault of the disk and want of memory close
    /// the store until it is opened anew. The transaction is hashed twice, for the chains, and no other is.
    pub fn commit<D: Disk, L: Ledger>(
        &mut self,
        alloc: Global,
        disk: &mut D,
        ops: &Ops,
        now: u64,
        steps: &mut Steps<L>,
    ) -> Result<u32, StoreFail>
        requires some { 0 < length ops.now }
        requires counted { All IsCountedOp ops.now }
        ensures number { IfOk result (λ n. n ≡ self.old.count + 1) }
        ensures refused { IsRefusedBy
            (commit_fault (tail_of self.old) self.old.at.is_closed ops.now now) result }
        ensures stands { StandsAfter result self.old
            (with_txn self.old (next_txn (tail_of self.old) ops.now now)) self.new }
        ensures same { IsSome (commit_fault (tail_of self.old) self.old.at.is_closed ops.now now)
            → Unchanged (D.state disk.old) (D.state disk.new) }
        ensures told { WhereTold (D.state disk.old).reads (D.state disk.new).reads
            (Adds (items.Txn (next_txn (tail_of self.old) ops.now now)) result
            self.old self.new (D.state disk.old) (D.state disk.new)) }
        ensures steps { steps.new ≤ steps.old + 2 }
        ensures frame { GoesOn (D.state disk.old) (D.state disk.new) }
        ensures cause { HasCause DiskFault (D.state disk.old).faults (D.state disk.new).faults result }
        ensures counted { ShowsFaults closes (D.state disk.old).faults (D.state disk.new).faults result }
    {
        let Some(moment) = self.moment_at(now) else {
            let last = self.contents.last;
            return Err(StoreFail::ClockBack { last });
        };
        if granule(moment, self.header.width) >= u64::from(MAX_GRANULES) {
            return Err(StoreFail::TooLate);
        }
        if ops.as_slice().len() > usize::from(MAX_OPS) {
            return Err(StoreFail::TooManyOps);
        }
        let number = self.txn_count() + 1;
        let txn = NextItem::Txn {
            number,
            moment,
            ops,
        };
        match self.store_txn(alloc, disk, &txn, moment, steps) {
            Ok(()) => Ok(number),
            Err(fail) => Err(fail),
        }
    }

    /// Why `commit` would refuse these operations at these clock seconds, if it would. Nothing is done, and no memory is
    /// taken: their bytes are counted, and not spelled.
    pub fn commit_refusal(&self, ops: &Ops, now: u64) -> Option<StoreFail>
        ensures value { result ≡ commit_fault (tail_of self.now) self.now.at.is_closed ops.now now }
    {
        let Some(moment) = self.moment_at(now) else {
            let last = self.contents.last;
            return Some(StoreFail::ClockBack { last });
        };
        let is_late = granule(moment, self.header.width) >= u64::from(MAX_GRANULES);
        if is_late {
            return Some(StoreFail::TooLate);
        }
        if ops.as_slice().len() > usize::from(MAX_OPS) {
            return Some(StoreFail::TooManyOps);
        }
        match txn_size(ops) {
            Some(bytes) => self.room_refusal(bytes),
            None => Some(StoreFail::TooLong),
        }
    }

    /// Why a record of so many bytes would not be stored.
    fn room_refusal(&self, bytes: usize) -> Option<StoreFail>
        requires short { bytes ≤ max_payload }
        ensures value { result ≡ where_true self.now.at.is_closed Closed
            (where_true (is_full self.now.at.end bytes) StoreFull None) }
    {
        if self.is_closed {
            return Some(StoreFail::Closed);
        }
        if self.file.end() + 5 + bytes as u64 >= MAX_FILE as u64 {
            return Some(StoreFail::StoreFull);
        }
        None
    }

    /// Stores a Frontier of this moment, where the last moment is before it: from then on nothing is
    /// committed below it.
    pub fn frontier<D: Disk>(
        &mut self,
        alloc: Global,
        disk: &mut D,
        moment: u64,
    ) -> Result<(), StoreFail>
        ensures refused { IsRefusedBy
            (frontier_fault (tail_of self.old) self.old.at.is_closed moment) result }
        ensures stands { StandsAfter result self.old (frontier_at self.old moment) self.new }
        ensures kept { IsErrOf result NoMemory → self.new ≡ shut self.old }
        ensures done { moment ≤ self.old.last → IsOk result }
        ensures same { moment ≤ self.old.last → Unchanged (D.state disk.old) (D.state disk.new) }
        ensures unstored { IsSome (frontier_fault (tail_of self.old) self.old.at.is_closed moment)
            → Unchanged (D.state disk.old) (D.state disk.new) }
        ensures told { self.old.last < moment → WhereTold (D.state disk.old).reads (D.state disk.new).reads
            (Adds (items.Frontier moment) result self.old self.new
            (D.state disk.old) (D.state disk.new)) }
        ensures frame { GoesOn (D.state disk.old) (D.state disk.new) }
        ensures cause { HasCause DiskFault (D.state disk.old).faults (D.state disk.new).faults result }
        ensures counted { ShowsFaults closes (D.state disk.old).faults (D.state disk.new).faults result }
    {
        if moment <= self.contents.last {
            return Ok(());
        }
        self.store_item(alloc, disk, &NextItem::Frontier { moment })
    }

    /// The moment of these clock seconds, where that isn't before the last one.
    fn moment_at(&self, now: u64) -> Option<u64>
        ensures value { MatchOption result (is_back (tail_of self.now) now ≡ true)
            (IsNextMoment (tail_of self.now) now) }
    {
        let moment = now.checked_sub(self.header.epoch)?;
        if moment < self.contents.last {
            return None;
        }
        Some(moment)
    }

    /// Stores an item that isn't before the last one, and is no transaction.
    fn store_item<D: Disk>(
        &mut self,
        alloc: Global,
        disk: &mut D,
        item: &NextItem<'_>,
    ) -> Result<(), StoreFail>
        requires counted { IsCounted (lent_item item.now) }
        requires few_ops { op_count_of (lent_item item.now) ≤ max_ops }
        requires follows { MayFollow self.old.last (lent_item item.now) }
        requires other { txn_in (lent_item item.now) ≡ None }
        ensures refused { IsRefusedBy
            (item_fault (tail_of self.old) self.old.at.is_closed (lent_item item.now)) result }
        ensures stands { StandsAfter result self.old (with_item self.old (lent_item item.now)) self.new }
        ensures kept { IsErrOf result NoMemory → self.new ≡ shut self.old }
        ensures same { IsSome (item_fault (tail_of self.old) self.old.at.is_closed (lent_item item.now))
            → Unchanged (D.state disk.old) (D.state disk.new) }
        ensures told { WhereTold (D.state disk.old).reads (D.state disk.new).reads
            (Adds (lent_item item.now) result self.old self.new (D.state disk.old) (D.state disk.new)) }
        ensures frame { GoesOn (D.state disk.old) (D.state disk.new) }
        ensures cause { HasCause DiskFault (D.state disk.old).faults (D.state disk.new).faults result }
        ensures counted { ShowsFaults closes (D.state disk.old).faults (D.state disk.new).faults result }
    {
        match item.encode(alloc) {
            Ok(payload) => self.store_payload(alloc, disk, item, payload.as_slice()),
            Err(fail) => {
                let fail = StoreFail::from(fail);
                self.is_closed |= fail.closes();
                Err(fail)
            }
        }
    }

    /// Adds an item to the file by its payload, and then to what is known of the file: once it is durable nothing takes
    /// memory.
    fn store_payload<D: Disk>(
        &mut self,
        alloc: Global,
        disk: &mut D,
        item: &NextItem<'_>,
        payload: &[u8],
    ) -> Result<(), StoreFail>
        requires spelled { Spells (lent_item item.now) payload.now }
        requires short { length payload.now ≤ max_payload }
        requires follows { MayFollow self.old.last (lent_item item.now) }
        requires other { txn_in (lent_item item.now) ≡ None }
        ensures refused { IsRefusedBy
            (item_fault (tail_of self.old) self.old.at.is_closed (lent_item item.now)) result }
        ensures stands { StandsAfter result self.old (with_item self.old (lent_item item.now)) self.new }
        ensures kept { IsErrOf result NoMemory → self.new ≡ shut self.old }
        ensures same { IsSome (item_fault (tail_of self.old) self.old.at.is_closed (lent_item item.now))
            → Unchanged (D.state disk.old) (D.state disk.new) }
        ensures told { WhereTold (D.state disk.old).reads (D.state disk.new).reads
            (Adds (lent_item item.now) result self.old self.new (D.state disk.old) (D.state disk.new)) }
        ensures frame { GoesOn (D.state disk.old) (D.state disk.new) }
        ensures cause { HasCause DiskFault (D.state disk.old).faults (D.state disk.new).faults result }
        ensures counted { ShowsFaults closes (D.state disk.old).faults (D.state disk.new).faults result }
    {
        if let Err(fail) = append(alloc, disk, &mut self.file, &mut self.is_closed, payload) {
            return Err(fail);
        }
        turn_chained(&mut self.chains, item, payload);
        self.contents.note(item, payload);
        Ok(())
    }
}

impl Store {
    /// The header.
    pub fn header(&self) -> &Header
        ensures value { result.now ≡ self.now.header }
        ensures fits { FitsHeader result.now }
    {
        &self.header
    }

    /// All that is stored, by table, key and moment.
    pub fn tables(&self) -> &Tables
        ensures value { result.now ≡ self.now.tables }
        ensures last { self.now.tables.last ≤ self.now.last }
    {
        &self.contents.tables
    }

    /// The eras of all items.
    pub fn eras(&self) -> &Eras
        ensures value { result.now ≡ self.now.eras }
    {
        &self.contents.eras
    }

    /// How many transactions are stored.
    pub fn txn_count(&self) -> u32
        ensures value { result ≡ self.now.count }
        ensures few { result < max_file }
    {
        let _end = self.file.end();
        self.contents.count
    }

    /// The greatest moment of an item, or 0.
    pub fn last_moment(&self) -> u64
        ensures value { result ≡ self.now.last }
    {
        self.contents.last
    }

    /// Whether a call has failed since the store was opened.
    pub fn is_closed(&self) -> bool
        ensures value { result ≡ self.now.at.is_closed }
    {
        self.is_closed
    }

    /// How many changing calls the append of a Frontier makes that is carried out.
    pub fn frontier_calls(&self) -> u8
        ensures each { (moment : ℕ)
            → result ≡ length (append_calls self.now.at (spell_frontier moment)) }
    {
        self.file.calls(9)
    }
}
