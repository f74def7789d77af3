//! What a drive answers, what a person is told of it on standard error, and the exit status. The
//! caller chooses the machine, the first type parameter.
#![tactic(auto)]

ghost use Rattle.oe_answers.specs.Endings.{EndsWith};
ghost use Rattle.oe_drive_answer.specs.Statuses.{drive_status, DriveAnswered};
ghost use Rattle.oe_drive_answer.specs.Statuses.{AreWritten, DriveWritten};

pub mod files;
pub mod progress;

use crate::progress::{Progress, Shown, tell_room};
use oe_answers::{Aim, Output, fail};
use oe_deeds::write_commits;
use oe_drive::{DriveFault, Ran, run_drive};
use oe_machine::Machine;
use oe_numbers::DriveNumbers;
use std::io;
use std::sync::Wait;
use std::thread::Threads;
use std::time::Clock;

// Names the fault of a drive, and gives its status.
fn tell_fault<R: Eprint, W: Output>(rt: &R, fault: DriveFault, writer: &W) -> io::Result<u8>
    ensures { EndsWith 1 result }
{
    match fault {
        DriveFault::NoMemory => fail(rt, Aim::Answers, DriveFault::NoMemory),
        DriveFault::Write => fail(rt, Aim::Answers, writer.fault()),
    }
}

// Tells a person how a drive went, and gives its status.
fn tell<R: Clock + Eprint, W: Output>(
    rt: &R,
    progress: &Progress<'_, R>,
    numbers: &DriveNumbers,
    answer: &Result<Ran, DriveFault>,
    writer: &W,
) -> io::Result<u8>
    ensures { EndsWith (drive_status answer.now) result }
{
    match answer {
        Ok(ran) => {
            progress.end(numbers, ran, progress.took());
            Ok(ran.status)
        }
        Err(fault) => tell_fault(rt, *fault, writer),
    }
}

/// Runs a drive, and tells a person how it went; how it goes too, where the person is there.
pub fn answer_drive<
    M: Machine + Send,
    R: Threads + Wait + Clock + Eprint + AllocGlobal + Sync,
    W: Output,
>(rt: &R, numbers: &DriveNumbers, shown: Shown, writer: &mut W) -> io::Result<u8>
    ensures { DriveAnswered numbers.now (W.sink writer.old) (W.sink writer.new) result }
{
    let progress = match Progress::begin(rt, numbers, shown, false) {
        Ok(progress) => progress,
        Err(error) => return Err(error),
    };
    let _warned = tell_room(rt, numbers);
    let answer = run_drive::<M, _, _, _>(rt, rt.alloc(), &progress, numbers, writer);
    tell(rt, &progress, numbers, &answer, writer)
}

// Writes the commits of a drive in the order of their moments, and tells a person how it went.
fn write_ran<R: Clock + Eprint, F: Output>(
    rt: &R,
    progress: &Progress<'_, R>,
    numbers: &DriveNumbers,
    ran: Ran,
    file: &mut F,
) -> io::Result<u8>
    ensures { AreWritten numbers.now ran (F.sink file.old) (F.sink file.new) result }
{
    let mut ran = ran;
    let took = progress.took();
    ran.deeds.commits.sort();
    let commits = ran.deeds.commits.kept.as_slice();
    match write_commits(&numbers.scale, numbers.extents, commits, file) {
        Ok(()) => {
            progress.end(numbers, &ran, took);
            Ok(ran.status)
        }
        Err(_) => fail(rt, Aim::Answers, file.fault()),
    }
}

/// Runs a drive that keeps its commits, writes them to a file behind it, and tells a person how it
/// went.
///
/// Where the file takes no more the status is 1, and a beginning of the commits was written.
pub fn answer_drive_to<
    M: Machine + Send,
    R: Threads + Wait + Clock + Eprint + AllocGlobal + Sync,
    W: Output,
    F: Output,
>(rt: &R, numbers: &DriveNumbers, shown: Shown, file: &mut F, writer: &mut W) -> io::Result<u8>
    ensures { DriveWritten numbers.now (W.sink writer.old) (W.sink writer.new) (F.sink file.old)
        (F.sink file.new) result }
{
    let progress = match Progress::begin(rt, numbers, shown, true) {
        Ok(progress) => progress,
        Err(error) => return Err(error),
    };
    let _warned = tell_room(rt, numbers);
    match run_drive::<M, _, _, _>(rt, rt.alloc(), &progress, numbers, writer) {
        Ok(ran) => write_ran(rt, &progress, numbers, ran, file),
        Err(fault) => tell_fault(rt, fault, writer),
    }
}
