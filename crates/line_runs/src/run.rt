//! The command `run`: the lines of the input, carried out one after another.

ghost use Rattle.std.specs.Prelude.{◌≡◌, OnOk};
ghost use Rattle.outside_words.specs.Faults.{HasCause};
ghost use Rattle.disk_words.specs.Disk as disks;
ghost use Rattle.notary_link.specs.Notary as notaries;
ghost use Rattle.outside_io.specs.Sink as sinks;
ghost use Rattle.outside_io.specs.Source as sources;
ghost use Rattle.outside_io.specs.Clock as clocks;
ghost use Rattle.line_runs.specs.declared.run_fail.RunFail.TheVariants as fails;
ghost use Rattle.line_runs.specs.Devices.{desk, devices, StaysSound, HasCauses, AllGoOn};
ghost use Rattle.line_runs.specs.Ends.{Ends, run_ends};
ghost use Rattle.line_runs.specs.Saying.{SomeIsOut};
ghost use Rattle.line_runs.specs.Carrying.{CarriesFrom, RunsFrom, SoundFrom};
ghost use Rattle.line_runs.specs.Ran.{RunsOn};
ghost use Rattle.line_runs.specs.Sees.{SeesNothing, SeesAny, CountsRefusals, SeesOn};
ghost use Rattle.line_runs.specs.SeeingLines.{CarriesSeenFrom, RunsSeenFrom};

use crate::Status;
use crate::run_fail::{RunFail, end};
use crate::runner::Runner;
use crate::saying::refuse;
use crate::seen::Seen;
use disk_model::Disk;
use line_input::LineReader;
use notary_link::Notary;
use outside_io::{Clock, Sink, Source, write_whole};
use std::alloc::Global;
use store_engine::StoreFail;

/// Carries out the lines of the input. The reply of each is out before the next one is read. What is seen of a line
/// is noted also where its reply was cut off.
fn carry_lines<D: Disk, N: Notary, C: Clock, I: Source, O: Sink>(
    alloc: Global,
    runner: &mut Runner,
    disk: &mut D,
    notary: &mut N,
    clock: &mut C,
    input: &mut I,
    out: &mut O,
    seen: &mut Seen,
) -> Result<(), RunFail>
    requires unseen { SeesNothing seen.old }
    requires unrefused { runner.old.refused ≡ 0 }
    ensures any { SeesAny seen.new.first_refusal seen.new.refused }
    ensures counted { OnOk result (seen.new.refused ≡ runner.new.refused) }
    ensures sees { CarriesSeenFrom seen.new result runner.old runner.new
        (devices (D.state disk.old) (N.state notary.old) (C.state clock.old) (I.state input.old) (O.state out.old))
        (devices (D.state disk.new) (N.state notary.new) (C.state clock.new) (I.state input.new) (O.state out.new)) }
    ensures told { CarriesFrom result runner.old runner.new
        (devices (D.state disk.old) (N.state notary.old) (C.state clock.old) (I.state input.old) (O.state out.old))
        (devices (D.state disk.new) (N.state notary.new) (C.state clock.new) (I.state input.new) (O.state out.new)) }
    ensures disk_frame { disks.GoesOn (D.state disk.old) (D.state disk.new) }
    ensures notary_frame { notaries.GoesOn (N.state notary.old) (N.state notary.new) }
    ensures clock_frame { clocks.GoesOn (C.state clock.old) (C.state clock.new) }
    ensures input_frame { sources.GoesOn (I.state input.old) (I.state input.new) }
    ensures out_frame { sinks.GoesOn (O.state out.old) (O.state out.new) }
    ensures out_grows { SomeIsOut (O.state out.old) (O.state out.new) }
    ensures disk_cause { HasCause fails.DiskFault (D.state disk.old).faults (D.state disk.new).faults result }
    ensures notary_cause { HasCause fails.NotaryFault (N.state notary.old).faults (N.state notary.new).faults result }
    ensures read_cause { HasCause fails.ReadFault (I.state input.old).faults (I.state input.new).faults result }
    ensures write_cause { HasCause fails.WriteFault (O.state out.old).faults (O.state out.new).faults result }
{
    let mut reader = LineReader::new(alloc);
    'lines: while reader.read_line(input)? {
        let line = reader.line();
        let text = runner.reply(alloc, disk, notary, clock, line, &mut seen.begun)?;
        let written = write_whole(out, text.as_slice());
        seen.note(alloc, line, text, runner.refused);
        written?;
    }
    Ok(())
}

/// The run over a store that was opened.
fn run_opened<D: Disk, N: Notary, C: Clock, I: Source, O: Sink>(
    alloc: Global,
    runner: &mut Runner,
    disk: &mut D,
    notary: &mut N,
    clock: &mut C,
    input: &mut I,
    out: &mut O,
    seen: &mut Seen,
) -> Status
    requires unseen { SeesNothing seen.old }
    requires unrefused { runner.old.refused ≡ 0 }
    ensures refusals { CountsRefusals result seen.new }
    ensures sees { RunsSeenFrom seen.new result runner.old
        (devices (D.state disk.old) (N.state notary.old) (C.state clock.old) (I.state input.old) (O.state out.old))
        (devices (D.state disk.new) (N.state notary.new) (C.state clock.new) (I.state input.new) (O.state out.new)) }
    ensures told { RunsFrom result runner.old
        (devices (D.state disk.old) (N.state notary.old) (C.state clock.old) (I.state input.old) (O.state out.old))
        (devices (D.state disk.new) (N.state notary.new) (C.state clock.new) (I.state input.new) (O.state out.new)) }
    ensures sound { SoundFrom runner.old (desk (D.state disk.old) (N.state notary.old)) (desk (D.state disk.new) (N.state notary.new)) }
    ensures ends { Ends run_ends result (O.state out.old) (O.state out.new) }
    ensures causes { HasCauses result
        (devices (D.state disk.old) (N.state notary.old) (C.state clock.old) (I.state input.old) (O.state out.old))
        (devices (D.state disk.new) (N.state notary.new) (C.state clock.new) (I.state input.new) (O.state out.new)) }
    ensures goes_on { AllGoOn
        (devices (D.state disk.old) (N.state notary.old) (C.state clock.old) (I.state input.old) (O.state out.old))
        (devices (D.state disk.new) (N.state notary.new) (C.state clock.new) (I.state input.new) (O.state out.new)) }
{
    match carry_lines(alloc, runner, disk, notary, clock, input, out, seen) {
        Ok(()) => {
            if 0 < runner.refused {
                Status::Refused
            } else {
                Status::Ok
            }
        }
        Err(fail) => end(out, fail),
    }
}

/// The command, and what is seen of it.
pub fn run_lines<D: Disk, N: Notary, C: Clock, I: Source, O: Sink>(
    alloc: Global,
    id: u64,
    is_scripted: bool,
    disk: &mut D,
    notary: &mut N,
    clock: &mut C,
    input: &mut I,
    out: &mut O,
    seen: &mut Seen,
) -> Status
    requires unseen { SeesNothing seen.old }
    ensures refusals { CountsRefusals result seen.new }
    ensures sees { SeesOn is_scripted id seen.new result
        (devices (D.state disk.old) (N.state notary.old) (C.state clock.old) (I.state input.old) (O.state out.old))
        (devices (D.state disk.new) (N.state notary.new) (C.state clock.new) (I.state input.new) (O.state out.new)) }
    ensures leaves { RunsOn is_scripted id result
        (devices (D.state disk.old) (N.state notary.old) (C.state clock.old) (I.state input.old) (O.state out.old))
        (devices (D.state disk.new) (N.state notary.new) (C.state clock.new) (I.state input.new) (O.state out.new)) }
    ensures sound { StaysSound (desk (D.state disk.old) (N.state notary.old)) (desk (D.state disk.new) (N.state notary.new)) }
    ensures ends { Ends run_ends result (O.state out.old) (O.state out.new) }
    ensures causes { HasCauses result
        (devices (D.state disk.old) (N.state notary.old) (C.state clock.old) (I.state input.old) (O.state out.old))
        (devices (D.state disk.new) (N.state notary.new) (C.state clock.new) (I.state input.new) (O.state out.new)) }
    ensures goes_on { AllGoOn
        (devices (D.state disk.old) (N.state notary.old) (C.state clock.old) (I.state input.old) (O.state out.old))
        (devices (D.state disk.new) (N.state notary.new) (C.state clock.new) (I.state input.new) (O.state out.new)) }
{
    match Runner::open(alloc, disk, id, is_scripted) {
        Ok(mut runner) => run_opened(alloc, &mut runner, disk, notary, clock, input, out, seen),
        Err(StoreFail::NotAStore) => refuse(out, Status::NotAStore),
        Err(StoreFail::OldFormat) => refuse(out, Status::OldFormat),
        Err(StoreFail::DiskFault) => refuse(out, Status::DiskFault),
        Err(_) => Status::NoMemory,
    }
}
