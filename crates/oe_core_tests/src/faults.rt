//! Each read and each write of a script fails in turn. After a fault neither reader nor writer is
//! called again, and a front of the script's answers was written. Who embeds a run carries its fault
//! on by `?`.
ghost use Rattle.std.specs.Prelude.{None};

use oe_core::Core;
use oe_io::ports::{Failed, Intake, Outlet};
use oe_script::script::run_script;
use oe_script::session::ScriptFault;
use std::alloc::Global;

/// Four deliveries of a district commit, the last of which finds none to deliver, and two conditions
/// hold of it; an order commits there, and they hold again.
const SCRIPT: &[u8] =
    b"open 1 10 20 64\nbegin 1 delivery 1 1 3 2001-01-01T00:00:00\nrun 1\nbegin 1 delivery 1 1 3 2001-01-01T00:00:00\nrun 1\nbegin 1 delivery 1 1 3 2001-01-01T00:00:00\nrun 1\nbegin 1 delivery 1 1 3 2001-01-01T00:00:00\nrun 1\naudit 2 now\naudit 3 now\nbegin 1 neworder 1 1 1 2001-01-01T00:00:00 1:1:1 1:2:1 1:3:1 1:4:1 1:5:1\nrun 1\naudit 2 now\naudit 3 now\n";

/// An answer of one line for each line.
const ANSWERS: &[u8] =
    b"opened\nbegun\ncommit 1 delivery 8 8 129.22\nbegun\ncommit 2 delivery 9 9 154.91\nbegun\ncommit 3 delivery 10 10 182.85\nbegun\ncommit 4 delivery skipped\ncondition 2 holds\ncondition 3 holds\nbegun\ncommit 5 neworder 11 BARBARBAR GC 10.70 G:23:1.37 G:36:1.74 G:49:2.11 G:62:2.48 G:75:2.85\ncondition 2 holds\ncondition 3 holds\n";

/// Gives the script in pieces, and fails once a number of calls was made.
#[derive(Drop)]
struct FailingIntake {
    rest: &'static [u8],
    piece: usize,
    good_calls: usize,
    calls: usize,
}

impl Intake for FailingIntake {
    ghost source = { λ _. None };

    fn read(&mut self, buf: &mut [u8]) -> Result<usize, Failed> {
        self.calls = self.calls.saturating_add(1);
        if self.good_calls < self.calls {
            return Err(Failed);
        }
        let n = buf.len().min(self.rest.len()).min(self.piece);
        let (front, rest) = self.rest.split_at(n);
        buf[..n].copy_from_slice(front);
        self.rest = rest;
        Ok(n)
    }
}

/// Takes at most a piece at a call, and fails once a number of calls was made. It compares what it
/// takes with the answers.
#[derive(Drop)]
struct FailingOutlet {
    piece: usize,
    good_calls: usize,
    calls: usize,
    /// What was written, as far as it is a beginning of the answers.
    written: usize,
    is_beginning: bool,
}

impl Outlet for FailingOutlet {
    ghost sink = { λ _. None };

    fn write(&mut self, bytes: &[u8]) -> Result<usize, Failed> {
        self.calls = self.calls.saturating_add(1);
        if self.good_calls < self.calls {
            return Err(Failed);
        }
        let n = bytes.len().min(self.piece.max(1));
        let end = self.written.saturating_add(n);
        if ANSWERS.get(self.written..end) == Some(&bytes[..n]) {
            self.written = end;
        } else {
            self.is_beginning = false;
        }
        Ok(n)
    }
}

/// How a script is run: the reader gives a piece of that length and the writer takes one, and each
/// fails behind its good calls.
#[derive(Drop)]
struct Trial {
    given: usize,
    taken: usize,
    good_reads: usize,
    good_writes: usize,
}

/// How a script ended: whole, or by a fault.
const WHOLE: usize = 0;

const READ: usize = 1;

const WRITE: usize = 2;

/// Runs the script, and answers how it ended, how many bytes were written, and how often reader and
/// writer were called. `None` where something else than a front of the answers was written.
fn run(alloc: Global, trial: &Trial) -> Option<[usize; 4]> {
    let mut reader = FailingIntake {
        rest: SCRIPT,
        piece: trial.given,
        good_calls: trial.good_reads,
        calls: 0,
    };
    let mut writer = FailingOutlet {
        piece: trial.taken,
        good_calls: trial.good_writes,
        calls: 0,
        written: 0,
        is_beginning: true,
    };
    let end = match run_script::<Core, FailingIntake, FailingOutlet>(
        alloc,
        &mut reader,
        &mut writer,
    ) {
        Ok(()) => WHOLE,
        Err(ScriptFault::Read) => READ,
        Err(ScriptFault::Write) => WRITE,
    };
    if !writer.is_beginning {
        return None;
    }
    Some([end, writer.written, reader.calls, writer.calls])
}

/// Counts the ends of lines.
fn lines_in(text: &[u8]) -> usize {
    let mut count = 0usize;
    for byte in text {
        count = count.saturating_add(usize::from(*byte == b'\n'));
    }
    count
}

/// Tells the length of the first lines of a text.
fn length_of(text: &[u8], lines: usize) -> usize {
    let mut left = lines;
    let mut length = 0usize;
    for byte in text {
        if left == 0 {
            return length;
        }
        length = length.saturating_add(1);
        left = left.saturating_sub(usize::from(*byte == b'\n'));
    }
    length
}

/// Tells whether a reader that fails ends the script with its fault, at each of its calls: the
/// answers of the whole lines that were read were written before, once for each piece with the end
/// of a line, and neither reader nor writer is called again. The call behind the last byte is the
/// one that tells the end of the input.
fn are_read_faults(alloc: Global, given: usize) -> bool {
    let mut lines = 0usize;
    let mut writes = 0usize;
    for good_reads in 0..SCRIPT.len().div_ceil(given.max(1)).saturating_add(1) {
        let front = SCRIPT
            .get(..good_reads.saturating_mul(given))
            .unwrap_or(SCRIPT);
        if lines_in(front) > lines {
            lines = lines_in(front);
            writes = writes.saturating_add(1);
        }
        let trial = Trial {
            given,
            taken: 8_192,
            good_reads,
            good_writes: usize::MAX,
        };
        let written = length_of(ANSWERS, lines);
        if run(alloc, &trial) != Some([READ, written, good_reads.saturating_add(1), writes]) {
            return false;
        }
    }
    true
}

/// Tells whether all is answered where no call fails.
fn is_whole(alloc: Global, given: usize, taken: usize) -> bool {
    let trial = Trial {
        given,
        taken,
        good_reads: usize::MAX,
        good_writes: usize::MAX,
    };
    let Some(trace) = run(alloc, &trial) else {
        return false;
    };
    trace[0] == WHOLE && trace[1] == ANSWERS.len()
}

#[test]
fn each_read_fails(rt: HostRuntime) {
    assert!(rt; are_read_faults(rt.alloc(), 1));
    assert!(rt; is_whole(rt.alloc(), 1, 16));
    assert!(rt; are_read_faults(rt.alloc(), 16));
    assert!(rt; is_whole(rt.alloc(), 16, 1));
}

/// Tells whether a writer that fails ends the script with its fault, at each of its calls: what it
/// took before was written, the line was read whose answer has the next byte, and neither reader
/// nor writer is called again.
fn are_write_faults(alloc: Global, given: usize, taken: usize) -> bool {
    for good_writes in 0..ANSWERS.len().div_ceil(taken.max(1)) {
        let written = good_writes.saturating_mul(taken);
        let front = ANSWERS.get(..written).unwrap_or(ANSWERS);
        let read = length_of(SCRIPT, lines_in(front).saturating_add(1));
        let trial = Trial {
            given,
            taken,
            good_reads: usize::MAX,
            good_writes,
        };
        let reads = read.div_ceil(given.max(1));
        if run(alloc, &trial) != Some([WRITE, written, reads, good_writes.saturating_add(1)]) {
            return false;
        }
    }
    true
}

#[test]
fn each_write_fails(rt: HostRuntime) {
    assert!(rt; are_write_faults(rt.alloc(), 1, 1));
    assert!(rt; is_whole(rt.alloc(), 1, 1));
    assert!(rt; are_write_faults(rt.alloc(), 8_192, 16));
    assert!(rt; is_whole(rt.alloc(), 8_192, 16));
}

/// Runs a script whose first read fails, as a program that embeds it does.
fn run_embedded(alloc: Global) -> anyhow::Result<()> {
    let mut reader = FailingIntake {
        rest: SCRIPT,
        piece: 16,
        good_calls: 0,
        calls: 0,
    };
    let mut writer = FailingOutlet {
        piece: 16,
        good_calls: usize::MAX,
        calls: 0,
        written: 0,
        is_beginning: true,
    };
    run_script::<Core, FailingIntake, FailingOutlet>(alloc, &mut reader, &mut writer)?;
    Ok(())
}

#[test]
fn a_fault_is_carried_on(rt: HostRuntime) {
    let Err(error) = run_embedded(rt.alloc()) else {
        panic!(rt; "no fault")
    };
    let text = format!(in rt.alloc(); "{error}").expect(&rt, "memory");
    assert!(rt; text.as_str() == "read");
}
