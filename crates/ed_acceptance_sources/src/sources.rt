//! The lines of a source: their forms, and the first fault of form.

use ed_syntax::SourceCause::{BadByte, LongLine, NotAStatement, NumberRange, TooManyLines};
use ed_syntax::{SourceCause, SourceFault, parse};
use std::alloc::Global;
use std::process::Abort;

/// A text, and the number of its lines, or of the line of its first fault.
type Row = (&'static str, u32);

/// Texts that are read: the forms of both versions, and blanks between any two parts.
const READ: &[Row] = &[
    ("", 0),
    ("\n", 1),
    ("\n\n", 2),
    ("A 5 F", 1),
    ("A 5 F\n", 1),
    ("A 5 F\r\nZ F\r\n", 2),
    ("A\t5\tF", 1),
    ("A5F", 1),
    ("A 5F ; comment \" \x7e", 1),
    ("word 131071", 1),
    ("word -65536", 1),
    ("word-5", 1),
    ("a:", 1),
    ("a : A F", 1),
    ("a: word 5", 1),
    ("a: text \"AB\"", 1),
    ("segment m", 1),
    ("segment at", 1),
    ("segment at at 60", 1),
    ("segment m at 1023", 1),
    ("use use as as", 1),
    ("use print as p with H=x", 1),
    ("use print as p withH=5,N = y + 3", 1),
    ("use p as q with H=1,N=2,M=3,&=4,L=5,X=6", 1),
    ("enter main", 1),
    ("text\"AB\"", 1),
    ("data \"0123456789#*.@!&\"", 1),
    ("A 32767 F", 1),
    ("A a+1023 F", 1),
    ("version 2\n_c:\n_d: word 1\n_e: text \"A\"\n_f: long 1", 5),
    ("version 2", 1),
    (" version 02 ; comment", 1),
    ("version 2\nO _c F", 2),
    ("version 2\n_c: A F\n_1: P _d-_c F", 3),
    ("version 2\nP a+b D", 2),
    ("version 2\nuse a as b with H=_c-d", 2),
    ("version 2\nx: long 34359738367", 2),
    ("version 2\nlong -17179869184", 2),
    ("version 2\nlong: long 5", 2),
    ("a:", 1),
    ("\t a \t : \t", 1),
    ("a:AF", 1),
    (" a :\tA\t b \t+ 1\tF ;", 1),
    ("Ab+1F", 1),
    ("A b\t-\t1 D", 1),
    ("#F", 1),
    ("\t# \tD\t", 1),
    ("segment m at 0", 1),
    ("\tsegment\tm \tat\t 0 \t", 1),
    ("word 0", 1),
    ("\tword\t-\t0\t", 1),
    ("a:word-0", 1),
    ("text\"0\"", 1),
    ("\ttext \t\"A\" \t;\"", 1),
    ("use a as b", 1),
    ("\tuse\ta \tas\t b\t", 1),
    ("use a as b withH=c+1,N=2", 1),
    ("\tuse a as b\twith\tH\t=\tc\t-\t1\t,\tX\t=\t2\t", 1),
    ("\tenter\tm\t", 1),
    ("data\".\"", 1),
    ("\tdata\t\"AB\"\t;", 1),
    ("use p as q with H=32767,N=a+1023,M=a-1023", 1),
    ("word 0000000000000000000000000000000000000007", 1),
];

/// Texts whose first fault is a byte that no source has.
const BAD_BYTES: &[Row] = &[
    ("A 5 F\r\r\n", 1),
    ("A 5 F\r", 1),
    ("A 5F ; \x7f", 1),
    ("word 131072 \x01", 1),
    ("% \x01", 1),
    ("\x01\n%", 1),
];

/// Texts whose first fault is a line that is not a statement.
const NO_STATEMENTS: &[Row] = &[
    ("%", 1),
    ("word5", 1),
    ("word 5x", 1),
    ("word +5", 1),
    ("a: segment m", 1),
    ("a: enter m", 1),
    ("a: data \"12\"", 1),
    ("a: b: A F", 1),
    ("segment m at60", 1),
    ("segment m at 1024 x", 1),
    ("segment M", 1),
    ("use p as q with H=1,N=2,M=3,&=4,L=5,X=6,H=7", 1),
    ("use p as q with", 1),
    ("use p as q with H=1,", 1),
    ("use p as q with A=1", 1),
    ("enter 5", 1),
    ("text \"AB", 1),
    ("text \"\"", 1),
    ("text \"A;B\"", 1),
    ("A 99999999999999999999999999 X", 1),
    ("A a-b F", 1),
    ("A abcdefghijklmnop F\nA abcdefghijklmnopq F", 2),
    ("version 2\nuse _c as d", 2),
    ("version 2\n_c: segment m", 2),
    ("version 2\n_abcdefghijklmnop: Z F", 2),
    ("version", 1),
    ("version 1", 1),
    ("version 99999999999999999999", 1),
    ("Z F\nversion 2", 2),
    ("version 2\nversion 2", 2),
    ("segment main\nO _c F", 2),
    ("version 2\nP 5+b D", 2),
    ("version 2\nP _ D", 2),
    ("version 2\nenter _c", 2),
    ("version 2\nsegment _c", 2),
    ("version 2\nuse a as _c", 2),
    ("long 5", 1),
    (
        "segment m\nA nowhere F\nsegment s at 20\nZ F\nenter m\n%",
        6,
    ),
    ("text \"A B\"", 1),
    ("word 131072 x", 1),
    ("%\n\x01", 1),
    ("%\nword 131072", 1),
];

/// Texts whose first fault is a number out of its range.
const NUMBERS_OUT_OF_RANGE: &[Row] = &[
    ("word 131072", 1),
    ("word - 65537", 1),
    ("segment m at 1024", 1),
    ("use p as q with H=32768", 1),
    ("A 32768 D", 1),
    ("A a - 1024 F", 1),
    ("version 2\nlong 34359738368", 2),
    ("version 2\nlong -17179869185", 2),
    ("segment m at 1000000000000000000000000000000000000000", 1),
    ("A a+1000000000000000000000000000000000000000 F", 1),
    ("word -1000000000000000000000000000000000000000", 1),
    ("use p as q with H=a+1024", 1),
    (
        "version 2\nlong 1000000000000000000000000000000000000000",
        2,
    ),
    ("word 131072\n\x01", 1),
    ("word 131072\n%", 1),
    ("Z F\nword 131072\n%", 2),
    ("word 1000000000000000000000000000000000000000", 1),
    ("A 1000000000000000000000000000000000000000 F", 1),
    ("segment m at 4294967296", 1),
];

/// The texts that are read, and those with a first fault, by its cause.
const TEXTS: [(Option<SourceCause>, &[Row]); 4] = [
    (None, READ),
    (Some(BadByte), BAD_BYTES),
    (Some(NotAStatement), NO_STATEMENTS),
    (Some(NumberRange), NUMBERS_OUT_OF_RANGE),
];

/// Lines that have a fault.
const FAULTY: [(&[u8], SourceCause); 4] = [
    (b"\x01", BadByte),
    (&[b' '; 121], LongLine),
    (b"%", NotAStatement),
    (b"word 131072", NumberRange),
];

/// How a text is read: the number of its lines, or its first fault with its line.
fn outcome(alloc: Global, text: &[u8]) -> (u32, Option<SourceCause>) {
    match parse(alloc, text) {
        Ok(program) => (program.lines.len() as u32, None),
        Err(SourceFault::At { line, cause }) => (line, Some(cause)),
        Err(SourceFault::Memory) => (0, None),
    }
}

/// Checks how a text is read: with this number of lines and no fault, or with this first fault on this line.
fn expect_read(rt: &impl Abort, alloc: Global, text: &[u8], line: u32, fault: Option<SourceCause>) {
    assert!(rt; outcome(alloc, text) == (line, fault), "{text:?}");
}

/// Checks that the text of two lines has a first fault on a line.
fn expect_fault(
    rt: &impl Abort,
    alloc: Global,
    lines: (&[u8], &[u8]),
    line: u32,
    cause: SourceCause,
) {
    let mut text = lines.0.to_vec(alloc).expect(rt, "memory");
    text.push(b'\n').expect(rt, "memory");
    text.extend_from_slice(lines.1).expect(rt, "memory");
    expect_read(rt, alloc, &text, line, Some(cause));
}

#[test]
fn lines_have_a_form_or_their_first_fault(rt: HostRuntime) {
    for (fault, rows) in &TEXTS {
        for (text, line) in *rows {
            expect_read(&rt, rt.alloc(), text.as_bytes(), *line, *fault);
        }
    }
}

#[test]
fn the_most_bytes(rt: HostRuntime) {
    let alloc = rt.alloc();
    let mut long_and_large = [b'9'; 121];
    long_and_large[0] = b'A';
    long_and_large[120] = b'F';
    expect_read(&rt, alloc, &[b' '; 120], 1, None);
    expect_read(&rt, alloc, &[b'%'; 120], 1, Some(NotAStatement));
    expect_read(&rt, alloc, &[b' '; 121], 1, Some(LongLine));
    expect_read(&rt, alloc, &[b'%'; 121], 1, Some(LongLine));
    expect_read(&rt, alloc, &long_and_large, 1, Some(LongLine));
    expect_read(&rt, alloc, &[1; 121], 1, Some(BadByte));
}

#[test]
fn the_most_lines(rt: HostRuntime) {
    let alloc = rt.alloc();
    let mut many_and_faulty = [b'\n'; 2001];
    many_and_faulty[2000] = b'%';
    let mut faulty_and_many = [b'\n'; 2002];
    faulty_and_many[0] = b'%';
    expect_read(&rt, alloc, &[b'\n'; 2000], 2000, None);
    expect_read(&rt, alloc, &[b'\n'; 2001], 2001, Some(TooManyLines));
    expect_read(&rt, alloc, &many_and_faulty, 2001, Some(TooManyLines));
    expect_read(&rt, alloc, &faulty_and_many, 1, Some(NotAStatement));
}

#[test]
fn the_first_of_two_faulty_lines(rt: HostRuntime) {
    for (first, cause) in &FAULTY {
        expect_fault(&rt, rt.alloc(), (b"Z F", first), 2, *cause);
        for (second, _) in &FAULTY {
            expect_fault(&rt, rt.alloc(), (first, second), 1, *cause);
        }
    }
}
