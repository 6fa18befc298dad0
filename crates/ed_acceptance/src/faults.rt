//! Runs over devices that take and give few bytes a call, with one call that fails.

use crate::sources::LETTER;
use crate::support::words_of;
use ed_io::{MemorySink, MemorySource};
use ed_top::edsac;
use std::alloc::Global;
use std::process::Abort;

/// A run: its command, its input, and the status and the two texts of its answer if no call fails.
#[derive(Clone, Copy)]
pub struct Run {
    pub command: &'static str,
    pub input: &'static str,
    pub status: u8,
    pub out: &'static str,
    pub note: &'static str,
}

const TAPE: Run = Run {
    command: "tape",
    input: "T64KGKO2@ZFAFEZPF",
    status: 0,
    out: "A",
    note: "stopped at 66 after 193\n",
};

const CHECK_TAPE: Run = Run {
    command: "check-tape",
    input: "T64KGKO2@ZFAFEZPF",
    status: 0,
    out: "entry 64 after 191 orders, 17 rows\n",
    note: "",
};

const SOURCE: Run = Run {
    command: "run",
    input: LETTER,
    status: 0,
    out: "A",
    note: "entered 56 after 263 orders, stopped at 59 after 266\n",
};

const PUNCH: Run = Run {
    command: "punch",
    input: LETTER,
    status: 0,
    out: "T56K\nGK\nO3@\nO4@\nZF\n*F\nAF\nE56K\nPF\n",
    note: "",
};

const TRACE: Run = Run {
    command: "trace --limit 9",
    input: "T64KGKO2@ZFAFEZPF",
    status: 4,
    out: "TEHATAATE\n",
    note: "limit at 34 after 9\n",
};

/// More calls than any device has in these runs.
const CALLS: u64 = 100;

/// The result of a run of the program.
#[derive(Drop)]
struct Outcome {
    status: u8,
    out: Vec<u8>,
    note: Vec<u8>,
    /// The number of calls that failed, of all three devices.
    faults: u64,
}

/// A device of a run, of whose calls one fails. `Lines` is the output of a run that writes its lines one by one.
#[derive(Clone, Copy)]
pub enum Device {
    Input,
    Out,
    Lines,
    Note,
}

/// A sink that takes pieces of 3 bytes, of whose calls these fail.
fn sink(rt: &impl Abort, alloc: Global, failing: &[u64]) -> MemorySink {
    let failing = failing.to_vec(alloc).expect(rt, "memory");
    MemorySink::in_pieces(alloc, 200, failing, 3).expect(rt, "memory")
}

/// The result of a run with its input in pieces of 7 bytes and its texts in pieces of 3, in which this call of a device
/// fails.
fn outcome_with(rt: &impl Abort, alloc: Global, run: &Run, device: Device, call: u64) -> Outcome {
    let failing: &[u64] = &[call];
    let (reads, writes, notes): (&[u64], &[u64], &[u64]) = match device {
        Device::Input => (failing, &[], &[]),
        Device::Out | Device::Lines => (&[], failing, &[]),
        Device::Note => (&[], &[], failing),
    };
    let words = words_of(rt, alloc, run.command);
    let input = run.input.as_bytes().to_vec(alloc).expect(rt, "memory");
    let reads = reads.to_vec(alloc).expect(rt, "memory");
    let mut source = MemorySource::in_pieces(input, reads, 7);
    let mut out = sink(rt, alloc, writes);
    let mut note = sink(rt, alloc, notes);
    let status = edsac(alloc, &words, &mut source, &mut out, &mut note);
    let faults = source.faults().saturating_add(out.faults());
    Outcome {
        status,
        out: out.bytes().to_vec(alloc).expect(rt, "memory"),
        note: note.bytes().to_vec(alloc).expect(rt, "memory"),
        faults: faults.saturating_add(note.faults()),
    }
}

/// Whether what was written is the first `bytes` bytes of a text.
fn is_beginning(written: &[u8], text: &str, bytes: u64) -> bool {
    written.len() as u64 == bytes && text.as_bytes().starts_with(written)
}

/// The number of bytes that the first calls write, if each line is written in pieces of 3.
fn bytes_of_calls(text: &str, calls: u64) -> u64 {
    let mut left = calls;
    let mut bytes = 0u64;
    for line in text.split_inclusive('\n') {
        let length = line.len() as u64;
        let taken = left.min(length.div_ceil(3));
        bytes = length.min(3 * taken).saturating_add(bytes);
        left -= taken;
    }
    bytes
}

/// Whether the calls of a device in a run are fewer than this one: reads of 7 bytes, and writes of 3.
fn is_beyond(run: &Run, device: Device, call: u64) -> bool {
    match device {
        Device::Input => (run.input.len().div_ceil(7) as u64) < call,
        Device::Out => call == run.out.len().div_ceil(3) as u64,
        Device::Lines => bytes_of_calls(run.out, call) == run.out.len() as u64,
        Device::Note => call == run.note.len().div_ceil(3) as u64,
    }
}

/// What a run gives in which this call fails: its status, the number of bytes of its output, a text, and the number of
/// bytes of that text that are the note. No byte is written after a write that fails.
fn due(run: &Run, device: Device, call: u64) -> (u8, u64, &'static str, u64) {
    let written = call.saturating_mul(3);
    match device {
        Device::Input => (8, 0, "read fault\n", 11),
        Device::Out => (9, written, "", 0),
        Device::Lines => (9, bytes_of_calls(run.out, call), "", 0),
        Device::Note => (9, run.out.len() as u64, run.note, written),
    }
}

/// The first thing that is wrong in a run in which this call of a device fails if the run makes it, or nothing.
fn first_wrong(outcome: &Outcome, run: &Run, device: Device, call: u64) -> &'static str {
    let is_whole = outcome.faults == 0;
    let (status, written, note, noted) = if is_whole {
        let (written, noted) = (run.out.len() as u64, run.note.len() as u64);
        (run.status, written, run.note, noted)
    } else {
        due(run, device, call)
    };
    if is_whole && !is_beyond(run, device, call) {
        "no fault"
    } else if outcome.status != status {
        "another status"
    } else if !is_beginning(&outcome.out, run.out, written) {
        "another output"
    } else if !is_beginning(&outcome.note, note, noted) {
        "another note"
    } else {
        ""
    }
}

/// Each call of a device fails in turn in a run.
pub fn calls_fail(rt: &impl Abort, alloc: Global, run: &Run, device: Device) {
    for call in 0..CALLS {
        let outcome = outcome_with(rt, alloc, run, device, call);
        let wrong = first_wrong(&outcome, run, device, call);
        assert!(rt; wrong.is_empty(), "call {call}: {wrong}");
        if outcome.faults == 0 {
            return;
        }
    }
    panic!(rt; "each call fails");
}

#[test]
fn a_read_that_fails_is_told_and_nothing_is_run(rt: HostRuntime) {
    calls_fail(&rt, rt.alloc(), &TAPE, Device::Input);
    calls_fail(&rt, rt.alloc(), &SOURCE, Device::Input);
}

#[test]
fn a_write_that_fails_leaves_a_part_on_out_and_nothing_on_note(rt: HostRuntime) {
    calls_fail(&rt, rt.alloc(), &CHECK_TAPE, Device::Out);
    calls_fail(&rt, rt.alloc(), &PUNCH, Device::Out);
    calls_fail(&rt, rt.alloc(), &TRACE, Device::Lines);
}

#[test]
fn a_note_that_fails_leaves_all_of_out_and_a_part_of_the_note(rt: HostRuntime) {
    calls_fail(&rt, rt.alloc(), &TAPE, Device::Note);
    calls_fail(&rt, rt.alloc(), &SOURCE, Device::Note);
}
