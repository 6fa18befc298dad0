//! What is written for a line of each form and for three examples, and when a program is not written.

use crate::support::expect;
use ed_syntax::{Program, parse};
use ed_writer::{WriteFault, text_of_program};
use std::alloc::Global;
use std::process::Abort;

/// Lines of version 2 with blanks, zeros and comments wherever these may stand, and what is written for each.
const FORMS: [(&str, &str); 27] = [
    ("\t; a comment", ""),
    ("loop :", "loop:"),
    ("_go:A 1F ; on", "_go: A 1 F"),
    ("segment  main", "segment main"),
    ("segment main at 0100", "segment main at 100"),
    ("ZF", "Z F"),
    ("A 0 D", "A D"),
    ("A5F", "A 5 F"),
    ("#32767F", "# 32767 F"),
    ("T x D", "T x D"),
    ("T x + 0 F", "T x F"),
    ("T x - 0 F", "T x F"),
    ("T x+01F", "T x+1 F"),
    ("T x - 1023 F", "T x-1023 F"),
    ("T _a + b F", "T _a+b F"),
    ("P a-_b F", "P a-_b F"),
    ("word 131071", "word 131071"),
    ("w: word - 1", "w: word 131071"),
    ("word 00", "word 0"),
    ("long 05", "long 5"),
    ("long-1", "long 34359738367"),
    ("text\"*HELLO\"", "text \"*HELLO\""),
    ("use print  as p", "use print as p"),
    ("use print as p with H=01", "use print as p with H=1"),
    (
        "use a as b with H=x ,N = y+1,&=_c-d",
        "use a as b with H=x, N=y+1, &=_c-d",
    ),
    ("enter  main", "enter main"),
    ("data\"1949F32F\"", "data \"QOROFEWF\""),
];

/// Sources of the examples count, hello and squares without their comments, which are written unchanged.
const EXAMPLES: [&str; 3] = [COUNT, HELLO, SQUARES];

const COUNT: &str = "\
    \n\nsegment main\nO figures F\nnext: T scrap F\nO digit F\nA digit F\nS one F\nU digit F\nE next F\n\
    Z F\nfigures: # F\ndigit: O F\none: Q F\nscrap: P F\nenter main\n";

const HELLO: &str = "\
    version 2\n\n\nsegment main\n_next: T _scrap F\n_print: O letters F\nA _print F\nA 2 F\nU _print F\n\
    S _last F\nG _next F\nT _scrap F\n_call: A _call F\nG n F\nZ F\n_last: O letters+6 F\n_scrap: P F\n\
    segment text\nletters: text \"*HELLO\"\nuse newline as n\nenter main\n";

const SQUARES: &str = "\
    \n\nsegment main\nnext: T scrap F\nA count F\nA one F\nU count F\nS eleven F\nE end F\nT scrap F\n\
    A square F\nA step F\nT square F\nA step F\nA two F\nT step F\nprint: A print F\nG p F\nline: A line F\n\
    G n F\nE next F\nend: Z F\ncount: P F\nsquare: P F\nstep: P D\none: P D\ntwo: P 1 F\neleven: P 5 D\n\
    scrap: P F\nuse print as p with H=square\nuse newline as n\nenter main\n";

/// A string of 113 rows. A line of `text` with it has 120 bytes.
const ROWS: &str =
    "HELLO*HELLO*HELLO*HELLO*HELLO*HELLO*HELLO*HELLO*HELLO*HELLO*HELLO*HELLO*HELLO*HELLO*HELLO*HELLO*HELLO*HELLO*HELLO";

/// The text of the program of a source, as it is written.
fn rewritten(rt: &impl Abort, alloc: Global, source: &str) -> Result<Vec<u8>, WriteFault> {
    let program = parse(alloc, source.as_bytes()).ok().expect(rt, source);
    text_of_program(alloc, &program)
}

/// Checks how the program of a source is written.
fn expect_written(rt: &impl Abort, alloc: Global, source: &str, wanted: &str) {
    let text = rewritten(rt, alloc, source).ok().expect(rt, source);
    expect(rt, text.as_slice() == wanted.as_bytes(), source);
}

/// Checks how a line is written.
fn expect_line(rt: &impl Abort, alloc: Global, line: &str, wanted: &str) {
    let source = format!(in alloc; "version  02\n{line}").expect(rt, "memory");
    let text = format!(in alloc; "version 2\n{wanted}\n").expect(rt, "memory");
    expect_written(rt, alloc, &source, &text);
}

#[test]
fn forms_and_examples_are_written(rt: HostRuntime) {
    for (line, wanted) in &FORMS {
        expect_line(&rt, rt.alloc(), line, wanted);
    }
    for source in &EXAMPLES {
        expect_written(&rt, rt.alloc(), source, source);
    }
}

#[test]
fn long_lines_are_not_written(rt: HostRuntime) {
    let alloc = rt.alloc();
    let longest = format!(in alloc; "\ntext \"{ROWS}\"\n").expect(&rt, "memory");
    assert!(rt; rewritten(&rt, alloc, &longest).is_ok());
    let longer = format!(in alloc; "\ntext\"{ROWS}V\"\n").expect(&rt, "memory");
    let fault = rewritten(&rt, alloc, &longer).err();
    assert!(rt; matches!(fault, Some(WriteFault::LongLine { line: 2 })));
}

#[test]
fn version_needs_a_line(rt: HostRuntime) {
    let alloc = rt.alloc();
    let program = Program {
        version: 2,
        lines: Vec::new(alloc),
    };
    let fault = text_of_program(alloc, &program).err();
    assert!(rt; matches!(fault, Some(WriteFault::NoVersionLine)));
}
