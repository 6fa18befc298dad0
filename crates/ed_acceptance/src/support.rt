//! What the tests share: a run of the whole program on words and an input.

use ed_io::{SureSink, SureSource};
use ed_programs::Refusal;
use ed_top::edsac;
use std::alloc::Global;
use std::process::Abort;

/// The most bytes that an output keeps.
const ROOM: usize = 1 << 21;

/// The answer of a run of the program.
#[derive(Drop)]
pub struct Answer {
    pub status: u8,
    pub out: Vec<u8>,
    pub note: Vec<u8>,
    /// The number of bytes of the input that were not read.
    pub unread: usize,
}

/// The words of a command line, which blanks separate.
pub fn words_of(rt: &impl Abort, alloc: Global, line: &str) -> Vec<String> {
    let mut words = Vec::new(alloc);
    for word in line.split_whitespace() {
        let word = String::from_str(alloc, word).expect(rt, "memory");
        words.push(word).ok().expect(rt, "memory");
    }
    words
}

/// Checks that something holds. A failure shows the name of what was checked.
pub fn expect_that(rt: &impl Abort, told: bool, name: &str) {
    assert!(rt; told, "{name}");
}

/// The answer of the program to a command line and an input, over devices that never fail.
pub fn answer_of(rt: &impl Abort, alloc: Global, line: &str, input: &[u8]) -> Answer {
    let words = words_of(rt, alloc, line);
    let mut source = SureSource::new(input.to_vec(alloc).expect(rt, "memory"));
    let mut out = SureSink::new(alloc, ROOM).expect(rt, "memory");
    let mut note = SureSink::new(alloc, ROOM).expect(rt, "memory");
    let status = edsac(alloc, &words, &mut source, &mut out, &mut note);
    Answer {
        status,
        out: out.bytes().to_vec(alloc).expect(rt, "memory"),
        note: note.bytes().to_vec(alloc).expect(rt, "memory"),
        unread: source.bytes().len(),
    }
}

/// A command line, its input, and the status and the two texts that are due.
pub type Row = (&'static str, &'static str, u8, &'static str, &'static str);

/// What may follow the wanted text in a note.
#[derive(Clone, Copy)]
enum AfterText {
    Nothing,
    Anything,
}

/// The first part of an answer that is not the wanted one, or nothing.
fn first_difference(answer: &Answer, wanted: (u8, &str, &str), after: AfterText) -> &'static str {
    let (status, out, note) = wanted;
    if answer.status != status {
        "status"
    } else if answer.out.as_slice() != out.as_bytes() {
        "output"
    } else if !answer.note.starts_with(note.as_bytes()) {
        "note"
    } else {
        match after {
            AfterText::Nothing if answer.note.len() != note.len() => "length of the note",
            _ => "",
        }
    }
}

/// Checks that no part of the answer to a command line and an input differs. Answers the number of bytes of the input
/// that were not read.
fn expect_answer(
    rt: &impl Abort,
    alloc: Global,
    line: &str,
    input: &str,
    wanted: (u8, &str, &str),
    after: AfterText,
) -> usize {
    let answer = answer_of(rt, alloc, line, input.as_bytes());
    let differs = first_difference(&answer, wanted, after);
    assert!(rt; differs.is_empty(), "the {differs} of {line} on {input}");
    answer.unread
}

/// Checks that the program answers a status and two texts. Answers the number of bytes of the input that were not read.
pub fn expect(
    rt: &impl Abort,
    alloc: Global,
    line: &str,
    input: &str,
    wanted: (u8, &str, &str),
) -> usize {
    expect_answer(rt, alloc, line, input, wanted, AfterText::Nothing)
}

/// The same, where the note may go on after the wanted text.
pub fn expect_beginning(
    rt: &impl Abort,
    alloc: Global,
    line: &str,
    input: &str,
    wanted: (u8, &str, &str),
) -> usize {
    expect_answer(rt, alloc, line, input, wanted, AfterText::Anything)
}

/// Checks that there is a program, and that a command answers it with a text and status 0.
pub fn answers(
    rt: &impl Abort,
    alloc: Global,
    command: &str,
    program: Result<String, Refusal>,
    wanted: &str,
) {
    let program = program.ok().expect(rt, "a program");
    expect_beginning(rt, alloc, command, &program, (0, wanted, ""));
}

/// Checks that there is a program, and that its run prints a number.
pub fn prints_number(
    rt: &impl Abort,
    alloc: Global,
    program: Result<String, Refusal>,
    number: u32,
) {
    let wanted = format!(in alloc; "{number}").expect(rt, "memory");
    answers(rt, alloc, "run", program, &wanted);
}

/// A text of texts, each a number of times.
pub fn repeated(rt: &impl Abort, alloc: Global, parts: &[(&str, u32)]) -> String {
    let mut text = String::new(alloc);
    for (part, times) in parts {
        for _ in 0..*times {
            text.push_str(part).expect(rt, "memory");
        }
    }
    text
}

/// Checks the answers to the rows of a table.
pub fn expect_each(rt: &impl Abort, alloc: Global, rows: &[Row]) {
    for (line, input, status, out, note) in rows {
        expect(rt, alloc, line, input, (*status, out, note));
    }
}

const USAGE: &str =
    "usage: edsac COMMAND [--limit N] [--resume N] [--post-mortem FROM,COUNT] [--store SIZE]\n";

/// Checks that command lines are refused and that no byte of the input is read.
pub fn expect_usage(rt: &impl Abort, alloc: Global, lines: &[&str], input: &str) {
    for line in lines {
        let unread = expect(rt, alloc, line, input, (2, "", USAGE));
        expect_that(rt, unread == input.len(), line);
    }
}

/// Checks that there is no program for numbers, for a cause.
pub fn expect_no_program(
    rt: &impl Abort,
    program: Result<String, Refusal>,
    cause: Refusal,
    numbers: &[u16],
) {
    assert!(rt; program == Err(cause), "{numbers:?}");
}
