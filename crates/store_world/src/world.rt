//! A world of the code: the store of an id with its sessions, as lines find them.

ghost use Rattle.std.proofs.Props.{props};
ghost use Rattle.std.specs.Prelude.{◌≡◌, ⊤, None, false, IfSome, IsSome, IfErr, OnErr, OnOk, option_map};
ghost use Rattle.std.specs.Option.{option_copied};
ghost use Rattle.outside_words.specs.Faults.{HasCause, HidesNoFault};
ghost use Rattle.disk_words.specs.Disk as disks;
ghost use Rattle.notary_link.specs.Notary as notaries;
ghost use Rattle.stmt_text.specs.Fits.{FitsParts};
ghost use Rattle.stmt_text.specs.Kinds.{line_kind};
ghost use Rattle.session_model.specs.Standing.{IsStatementLine, NoneKept};
ghost use Rattle.store_engine.specs.declared.fail.StoreFail.TheVariants as stores;
ghost use Rattle.store_engine.specs.Causes.{IsOfOpening};
ghost use Rattle.validator.specs.Desk.{KeepsSound, desk};
ghost use Rattle.store_world.specs.declared.fail.LineFail.TheVariants.{DiskFault, NotaryFault};
ghost use Rattle.store_world.specs.Standing.{StandsOver, IsEntered, is_refused_old};
ghost use Rattle.store_world.specs.Faults.{MayEndIn};
ghost use Rattle.store_world.specs.Steps.{IsWorldLine};
ghost use Rattle.store_world.specs.Stepping.{HidesNone, StepsFor, KeepsStore};
ghost use Rattle.store_world.specs.ByBytes.{NeedsStore, IsToldNone, GoesByBytes};

use crate::answered::Answered;
use crate::fail::LineFail;
use crate::lines::{answer_with_store, answer_without_store};
use crate::open_store::OpenStore;
use audit_steps::Auditor;
use disk_model::Disk;
use notary_link::Notary;
use session_core::Sessions;
use std::alloc::Global;
use std::marker::Model;
use stmt_text::Line;
use store_engine::{Store, StoreFail};

/// The store of an id with its sessions, or no store yet; and its auditor. Each call on it is lent the disk and the
/// notary, which have to be as the last call left them.
#[derive(Drop)]
pub struct World {
    id: u64,
    opened: Option<OpenStore>,
    // whether the file was refused as one of the first format
    is_old: bool,
    auditor: Auditor,
    ghost not_old: { IfSome opened (λ o. is_old ≡ false) } by { Prim.hlevel props },
    ghost unclosed: { IfSome opened (λ o. o.store.at.is_closed ≡ false) } by { Prim.hlevel props },
    ghost own: { IfSome opened (λ o. o.store.header.id ≡ id) } by { Prim.hlevel props },
}

impl Model for World {
    ghost use Rattle.store_world.specs.Standing.{OpenWorld};

    ghost Value = { OpenWorld };

    ghost view = { λ w. record { id = w.id; opened = w.opened; is_old = w.is_old; auditing = w.auditor } };
}

impl World {
    /// No store, and no memory.
    pub fn new(id: u64) -> World
        ensures id { result.id ≡ id }
        ensures value { result.opened ≡ None }
        ensures audit { result.auditing ≡ None }
    {
        World {
            id,
            opened: None,
            is_old: false,
            auditor: Auditor::new(),
        }
    }

    /// Opens the store of the id anew, without any session, and its audit begins anew. After a refusal
    /// there is no store; lines are told whether the file was refused as one of the first format.
    pub fn enter<D: Disk>(&mut self, alloc: Global, disk: &mut D) -> Result<(), StoreFail>
        ensures id { self.new.id ≡ self.old.id }
        ensures value { IfSome (D.state disk.old).reads (λ bytes. IsEntered self.old.id bytes result self.new.opened) }
        ensures some { OnOk result (IsSome self.new.opened) }
        ensures open { IfSome self.new.opened (λ o. o.store.at.is_closed ≡ false) }
        ensures own { IfSome self.new.opened (λ o. o.store.header.id ≡ self.old.id) }
        ensures sessions { IfSome self.new.opened (λ o. NoneKept o.sessions) }
        ensures audit { self.new.auditing ≡ None }
        ensures none { OnErr result (self.new.opened ≡ None) }
        ensures is_old { self.new.is_old ≡ is_refused_old result }
        ensures none_other { IfErr result IsOfOpening }
        ensures same { disks.Unchanged (D.state disk.old) (D.state disk.new) }
        ensures frame { disks.GoesOn (D.state disk.old) (D.state disk.new) }
        ensures cause { HasCause stores.DiskFault (D.state disk.old).faults (D.state disk.new).faults result }
    {
        self.opened = None;
        self.is_old = false;
        self.begin_audit();
        match Store::open_store(alloc, disk, self.id) {
            Ok(store) => {
                self.opened = Some(OpenStore {
                    store,
                    sessions: Sessions::new(alloc),
                });
                Ok(())
            }
            Err(fail) => {
                self.is_old = matches!(fail, StoreFail::OldFormat);
                Err(fail)
            }
        }
    }

    /// Carries out a line at these clock seconds. After a failure there is no store, and no session, and
    /// the audit begins anew.
    pub fn line<D: Disk, N: Notary>(
        &mut self,
        alloc: Global,
        disk: &mut D,
        notary: &mut N,
        line: &Line,
        now: u64,
    ) -> Result<Answered, LineFail>
        requires is_line { IsWorldLine line.now }
        requires fits { FitsParts line.now }
        ensures id { self.new.id ≡ self.old.id }
        ensures is_old { self.new.is_old ≡ self.old.is_old }
        ensures store { KeepsStore result self.old self.new }
        ensures audit { OnErr result (self.new.auditing ≡ None) }
        ensures open { IfSome self.new.opened (λ o. o.store.at.is_closed ≡ false) }
        ensures own { IfSome self.new.opened (λ o. o.store.header.id ≡ self.old.id) }
        ensures none { self.old.opened ≡ None → NeedsStore line.now → IsToldNone self.old.is_old result
            (desk (D.state disk.old) (N.state notary.old)) (desk (D.state disk.new) (N.state notary.new)) }
        ensures bytes { GoesByBytes line.now self.old.id self.old.auditing self.new.auditing now result
            (desk (D.state disk.old) (N.state notary.old)) (desk (D.state disk.new) (N.state notary.new)) }
        ensures unasked { IsStatementLine line.now → N.state notary.new ≡ N.state notary.old }
        ensures only { IfErr result (MayEndIn (line_kind line.now) ⊤) }
        ensures told { StepsFor line.now now result self.old self.new
            (desk (D.state disk.old) (N.state notary.old)) (desk (D.state disk.new) (N.state notary.new)) }
        ensures sound { KeepsSound (StandsOver self.old)
            (desk (D.state disk.old) (N.state notary.old)) (desk (D.state disk.new) (N.state notary.new)) }
        ensures disk_frame { disks.GoesOn (D.state disk.old) (D.state disk.new) }
        ensures notary_frame { notaries.GoesOn (N.state notary.old) (N.state notary.new) }
        ensures disk_cause { HasCause DiskFault (D.state disk.old).faults (D.state disk.new).faults result }
        ensures disk_counted { HidesNoFault (D.state disk.old).faults (D.state disk.new).faults result }
        ensures notary_cause { HasCause NotaryFault (N.state notary.old).faults (N.state notary.new).faults result }
        ensures notary_counted { HidesNone (N.state notary.old) (N.state notary.new) result }
    {
        match self.opened.take() {
            Some(mut open) => match answer_with_store(
                alloc,
                &mut open.sessions,
                &mut open.store,
                &mut self.auditor,
                disk,
                notary,
                line,
                now,
            ) {
                Ok(answered) => {
                    self.opened = Some(open);
                    Ok(answered)
                }
                Err(fail) => {
                    self.begin_audit();
                    Err(fail)
                }
            },
            None => {
                let result = answer_without_store(
                    alloc,
                    &mut self.auditor,
                    disk,
                    notary,
                    self.id,
                    self.is_old,
                    line,
                    now,
                );
                if result.is_err() {
                    self.begin_audit();
                }
                result
            }
        }
    }

    /// What was read so far is forgotten.
    fn begin_audit(&mut self)
        ensures change { self.new ≡ record self.old { auditing = None } }
    {
        self.auditor = Auditor::new();
    }

    /// The store, where there is one.
    pub fn store(&self) -> Option<&Store>
        ensures value { option_copied result ≡ option_map (λ o. o.store) self.now.opened }
    {
        match &self.opened {
            Some(open) => Some(&open.store),
            None => None,
        }
    }
}
