//! Calls of the library's routines, and the list of the library.

use crate::support::{Row, expect_beginning, expect_each, expect_that};

/// Calls, and what they print.
const PRINTED: [(&str, &str); 16] = [
    ("call print 0", "0"),
    ("call print 7", "7"),
    ("call print 10", "10"),
    ("call print 4096", "4096"),
    ("call print 65535", "65535"),
    ("call read 0", "0"),
    ("call read 42", "42"),
    ("call read 65535", "65535"),
    ("call --limit=100000 read 0000042", "42"),
    ("call newline", "\r\n"),
    ("call divide 400000 7", "57142\r\n6"),
    ("call divide 0 1", "0\r\n0"),
    ("call root 65535", "255"),
    ("call root 65025", "255"),
    ("call root 65024", "254"),
    ("call root 0", "0"),
];

/// Each call prints its text, and reads no input.
#[test]
fn calls_print_digits(rt: HostRuntime) {
    for (line, printed) in &PRINTED {
        let wanted = (0, *printed, "entered 56 after ");
        let unread = expect_beginning(&rt, rt.alloc(), line, "no source", wanted);
        expect_that(&rt, unread == 9, line);
    }
}

/// A program that uses `print` twice.
const PRINTS_TWICE: &str =
    "segment main\na: A a F\nG p F\nb: A b F\nG q F\nZ F\nx: word 7\ny: word 12\n\
        use print as p with H=x\nuse print as q with H=y\nenter main\n";

#[test]
fn two_prints_with_parameters_of_their_own(rt: HostRuntime) {
    expect_beginning(&rt, rt.alloc(), "run", PRINTS_TWICE, (0, "712", ""));
}

/// A call that ends at its limit, and the lines of the library.
const RUNS: [Row; 2] = [
    ("call print 5 --limit 9", "", 4, "", "limit at 34 after 9\n"),
    (
        "library",
        "",
        0,
        "check 66 H\ndivide 41 H N M\nnewline 7\nprint 51 H\nread 24 H\nroot 23 H N\n",
        "",
    ),
];

#[test]
fn a_call_at_its_limit_and_the_lines_of_the_library(rt: HostRuntime) {
    expect_each(&rt, rt.alloc(), &RUNS);
}
