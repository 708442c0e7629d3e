//! The command `make`: the lines of a generated script, carried out one after another.

ghost use Rattle.std.specs.Prelude.{◌≡◌, ◌≤◌, ◌++◌, true, IfOk, IsSome};
ghost use Rattle.outside_words.specs.Faults.{HasCause};
ghost use Rattle.disk_words.specs.Disk as disks;
ghost use Rattle.notary_link.specs.Notary as notaries;
ghost use Rattle.outside_io.specs.Clock as clocks;
ghost use Rattle.outside_io.specs.Sink as sinks;
ghost use Rattle.outside_io.specs.Source as sources;
ghost use Rattle.workload_make.specs.Script.{max_steps};
ghost use Rattle.store_world.specs.declared.fail.LineFail.TheVariants as lines;
ghost use Rattle.line_runs.specs.Devices.{desk, site, devices, StaysSound, HasCauses, AllGoOn};
ghost use Rattle.line_runs.specs.Ends.{Ends, make_ends};
ghost use Rattle.line_runs.specs.Outcome.{Said};
ghost use Rattle.line_runs.specs.Saying.{WriteCause};
ghost use Rattle.line_runs.specs.Carrying.{SoundFrom};
ghost use Rattle.line_runs.specs.Ran.{ending_by};
ghost use Rattle.line_runs.specs.Made.{made_line, MakesOn};
ghost use Rattle.line_runs.specs.Sees.{SeesNothing, EndsByCount};
ghost use Rattle.line_runs.specs.MakingLines.{script_for, stored_in, told_of, MakesLinesFrom, MakesTextFrom, MakesFrom};

use crate::Status;
use crate::run_fail::{RunFail, end};
use crate::runner::Runner;
use crate::saying::{refuse, say};
use crate::seen::Seen;
use disk_model::Disk;
use line_input::first_line;
use notary_link::Notary;
use outside_io::{Clock, Sink};
use std::alloc::{AllocError, Global};
use store_engine::StoreFail;
use store_world::{LineFail, World};
use tuple_bytes::Blob;
use workload_make::script;

/// The replies to the last two lines.
#[derive(Drop)]
pub struct LastTwo {
    pub first: Blob,
    pub second: Blob,
}

/// Carries out the lines of a text, and keeps the replies to the last two.
fn make_lines<D: Disk, N: Notary, C: Clock>(
    alloc: Global,
    runner: &mut Runner,
    disk: &mut D,
    notary: &mut N,
    clock: &mut C,
    text: &[u8],
) -> Result<LastTwo, LineFail>
    requires scripted { runner.old.is_scripted ≡ true }
    ensures told { MakesLinesFrom text.now result runner.old runner.new
        (site (D.state disk.old) (N.state notary.old) (C.state clock.old)) (site (D.state disk.new) (N.state notary.new) (C.state clock.new)) }
    ensures sound { SoundFrom runner.old (desk (D.state disk.old) (N.state notary.old)) (desk (D.state disk.new) (N.state notary.new)) }
    ensures disk_frame { disks.GoesOn (D.state disk.old) (D.state disk.new) }
    ensures notary_frame { notaries.GoesOn (N.state notary.old) (N.state notary.new) }
    ensures clock_frame { clocks.GoesOn (C.state clock.old) (C.state clock.new) }
    ensures disk_cause { HasCause lines.DiskFault (D.state disk.old).faults (D.state disk.new).faults result }
    ensures notary_cause { HasCause lines.NotaryFault (N.state notary.old).faults (N.state notary.new).faults result }
{
    let mut rest = text;
    let mut first = Blob::new(alloc);
    let mut second = Blob::new(alloc);
    let mut begun = [false; 16];
    'lines: while !rest.is_empty() {
        let (line, behind) = first_line(rest);
        let reply = runner.reply(alloc, disk, notary, clock, line, &mut begun)?;
        first = second;
        second = reply;
        rest = behind;
    }
    Ok(LastTwo { first, second })
}

/// How many transactions the store has, where one is open.
fn stored_in(world: &World) -> u32
    ensures value { result ≡ stored_in world.now.opened }
{
    match world.store() {
        Some(store) => store.txn_count(),
        None => 0,
    }
}

/// The line that counts, and the last two replies.
fn summary(
    alloc: Global,
    count: u32,
    refused: u64,
    stored: u32,
    two: &LastTwo,
) -> Result<Blob, AllocError>
    ensures value { IfOk result (λ text. text ≡ made_line count refused stored ++ (two.now.first ++ two.now.second)) }
{
    let line = format!(in alloc; "made {count} refused {refused} txns {stored}\n")?;
    let mut text = Vec::new(alloc);
    text.extend_from_slice(line.as_bytes())?;
    text.extend_from_slice(two.first.as_slice())?;
    text.extend_from_slice(two.second.as_slice())?;
    Ok(Blob::from_vec(text))
}

/// How it ends behind all lines.
fn ending_by(refused: u64) -> Status
    ensures value { result ≡ ending_by refused }
{
    if 0 < refused {
        Status::Refused
    } else {
        Status::Ok
    }
}

/// Tells what was made.
fn say_made<O: Sink>(
    alloc: Global,
    out: &mut O,
    count: u32,
    runner: &Runner,
    two: &LastTwo,
) -> Status
    ensures counted { EndsByCount result runner.now.refused }
    ensures said { Said (told_of count runner.now two.now) result (O.state out.old) (O.state out.new) }
    ensures cause { WriteCause result (O.state out.old) (O.state out.new) }
    ensures frame { sinks.GoesOn (O.state out.old) (O.state out.new) }
{
    match summary(alloc, count, runner.refused, stored_in(&runner.world), two) {
        Ok(text) => say(out, text.as_slice(), ending_by(runner.refused)),
        Err(_) => Status::NoMemory,
    }
}

/// The script for the store that was opened.
fn script_of(alloc: Global, runner: &Runner, seed: u64, count: u32) -> Result<Blob, AllocError>
    requires store { IsSome runner.now.world.opened }
    requires some { 1 ≤ count }
    requires few { count ≤ max_steps }
    ensures value { IfOk result (λ text. text ≡ script_for runner.now seed count) }
{
    let store = runner.world.store().unwrap();
    script(alloc, store.header().width, runner.moment, seed, count)
}

/// Carries out the lines of a text, and tells what came of it.
fn make_text<D: Disk, N: Notary, C: Clock, O: Sink>(
    alloc: Global,
    runner: &mut Runner,
    text: &[u8],
    count: u32,
    disk: &mut D,
    notary: &mut N,
    clock: &mut C,
    out: &mut O,
) -> Status
    requires scripted { runner.old.is_scripted ≡ true }
    ensures counted { EndsByCount result runner.new.refused }
    ensures told { (input : sources.State) → MakesTextFrom count text.now runner.old result
        (devices (D.state disk.old) (N.state notary.old) (C.state clock.old) input (O.state out.old))
        (devices (D.state disk.new) (N.state notary.new) (C.state clock.new) input (O.state out.new)) }
    ensures sound { SoundFrom runner.old (desk (D.state disk.old) (N.state notary.old)) (desk (D.state disk.new) (N.state notary.new)) }
    ensures ends { Ends make_ends result (O.state out.old) (O.state out.new) }
    ensures causes { (input : sources.State) → HasCauses result
        (devices (D.state disk.old) (N.state notary.old) (C.state clock.old) input (O.state out.old))
        (devices (D.state disk.new) (N.state notary.new) (C.state clock.new) input (O.state out.new)) }
    ensures goes_on { (input : sources.State) → AllGoOn
        (devices (D.state disk.old) (N.state notary.old) (C.state clock.old) input (O.state out.old))
        (devices (D.state disk.new) (N.state notary.new) (C.state clock.new) input (O.state out.new)) }
{
    match make_lines(alloc, runner, disk, notary, clock, text) {
        Ok(two) => say_made(alloc, out, count, runner, &two),
        Err(fail) => end(out, RunFail::from(fail)),
    }
}

/// The command over a store that was opened.
fn make_opened<D: Disk, N: Notary, C: Clock, O: Sink>(
    alloc: Global,
    runner: &mut Runner,
    seed: u64,
    count: u32,
    disk: &mut D,
    notary: &mut N,
    clock: &mut C,
    out: &mut O,
) -> Status
    requires scripted { runner.old.is_scripted ≡ true }
    requires store { IsSome runner.old.world.opened }
    requires some { 1 ≤ count }
    requires few { count ≤ max_steps }
    ensures counted { EndsByCount result runner.new.refused }
    ensures told { (input : sources.State) → MakesFrom seed count runner.old result
        (devices (D.state disk.old) (N.state notary.old) (C.state clock.old) input (O.state out.old))
        (devices (D.state disk.new) (N.state notary.new) (C.state clock.new) input (O.state out.new)) }
    ensures sound { SoundFrom runner.old (desk (D.state disk.old) (N.state notary.old)) (desk (D.state disk.new) (N.state notary.new)) }
    ensures ends { Ends make_ends result (O.state out.old) (O.state out.new) }
    ensures causes { (input : sources.State) → HasCauses result
        (devices (D.state disk.old) (N.state notary.old) (C.state clock.old) input (O.state out.old))
        (devices (D.state disk.new) (N.state notary.new) (C.state clock.new) input (O.state out.new)) }
    ensures goes_on { (input : sources.State) → AllGoOn
        (devices (D.state disk.old) (N.state notary.old) (C.state clock.old) input (O.state out.old))
        (devices (D.state disk.new) (N.state notary.new) (C.state clock.new) input (O.state out.new)) }
{
    match script_of(alloc, runner, seed, count) {
        Ok(text) => make_text(
            alloc,
            runner,
            text.as_slice(),
            count,
            disk,
            notary,
            clock,
            out,
        ),
        Err(_) => Status::NoMemory,
    }
}

/// The command, and how many replies are seen to be refusals.
pub fn run_make<D: Disk, N: Notary, C: Clock, O: Sink>(
    alloc: Global,
    id: u64,
    seed: u64,
    count: u32,
    disk: &mut D,
    notary: &mut N,
    clock: &mut C,
    out: &mut O,
    seen: &mut Seen,
) -> Status
    requires some { 1 ≤ count }
    requires few { count ≤ max_steps }
    requires unseen { SeesNothing seen.old }
    ensures counted { EndsByCount result seen.new.refused }
    ensures leaves { (input : sources.State) → MakesOn id seed count result
        (devices (D.state disk.old) (N.state notary.old) (C.state clock.old) input (O.state out.old))
        (devices (D.state disk.new) (N.state notary.new) (C.state clock.new) input (O.state out.new)) }
    ensures sound { StaysSound (desk (D.state disk.old) (N.state notary.old)) (desk (D.state disk.new) (N.state notary.new)) }
    ensures ends { Ends make_ends result (O.state out.old) (O.state out.new) }
    ensures causes { (input : sources.State) → HasCauses result
        (devices (D.state disk.old) (N.state notary.old) (C.state clock.old) input (O.state out.old))
        (devices (D.state disk.new) (N.state notary.new) (C.state clock.new) input (O.state out.new)) }
    ensures goes_on { (input : sources.State) → AllGoOn
        (devices (D.state disk.old) (N.state notary.old) (C.state clock.old) input (O.state out.old))
        (devices (D.state disk.new) (N.state notary.new) (C.state clock.new) input (O.state out.new)) }
{
    match Runner::open(alloc, disk, id, true) {
        Ok(mut runner) => {
            let status = make_opened(alloc, &mut runner, seed, count, disk, notary, clock, out);
            seen.refused = runner.refused;
            status
        }
        Err(StoreFail::NotAStore) => refuse(out, Status::NotAStore),
        Err(StoreFail::OldFormat) => refuse(out, Status::OldFormat),
        Err(StoreFail::DiskFault) => refuse(out, Status::DiskFault),
        Err(_) => Status::NoMemory,
    }
}
