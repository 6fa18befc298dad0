//! Which lines are commands of a script.

use crate::support::expect;
use ed_stepper::bad_line;

/// Lines of a script, at both ends of their ranges, and with spaces between all parts.
const LINES: [&str; 30] = [
    "",
    "  ",
    "go 1",
    "go 100000000",
    "go 000000001",
    "  go   7 ",
    "to 0",
    "to 1023",
    "  to  1023 ",
    "entry",
    " entry ",
    "  entry",
    "back 0",
    "back 100000000",
    " back  5 ",
    "trace 1",
    "trace 10000",
    " trace  10000 ",
    "show 0",
    "show 1023",
    " show   44 ",
    "show 0 0",
    "show 0 1023",
    "show 1023 1023",
    "  show 5  6 ",
    "show acc",
    " show  acc  ",
    "show mult",
    "show last",
    "show  last",
];

/// Lines that are not commands: a number out of its range or form, a part too few or too many, other words, a tab.
const OTHERS: [&str; 47] = [
    "go",
    "go 0",
    "go 100000001",
    "go 0000000001",
    "go +1",
    "go -1",
    "go 1x",
    "go 1 2",
    "go1",
    "Go 1",
    "to",
    "to 1024",
    "to acc",
    "to 1 2",
    "entry 1",
    "entries",
    "back",
    "back 100000001",
    "back -1",
    "back 1 1",
    "trace",
    "trace 0",
    "trace 10001",
    "trace 1 1",
    "show",
    "show 1024",
    "show 2 1",
    "show 0 1024",
    "show 1 2 3",
    "show acc 1",
    "show acc mult",
    "show accu",
    "show Mult",
    "show last last",
    "show 1,2",
    "tape",
    "source",
    "x",
    "go 1\u{b}",
    "go\r1",
    "\t",
    " \t ",
    "go\t9",
    "go 9\t",
    "\tentry",
    "show 3\t",
    "show 3\t4",
];

/// Scripts, and their first lines that are no commands.
const SCRIPTS: [(&str, u32); 3] = [
    ("go 1\r\nto 5\r\r\nx\n", 2),
    ("\n\nx\nx\n", 3),
    ("go 1\nentry\r", 2),
];

#[test]
fn the_first_bad_line_is_reported(rt: HostRuntime) {
    for line in &LINES {
        expect(&rt, bad_line(line.as_bytes()).is_none(), line);
    }
    for line in &OTHERS {
        expect(&rt, bad_line(line.as_bytes()) == Some(1), line);
    }
    assert!(rt; bad_line(b"go 1\r\nto 5\r\n\r\nentry").is_none());
    for row in &SCRIPTS {
        let (script, line) = *row;
        expect(&rt, bad_line(script.as_bytes()) == Some(line), script);
    }
}

#[test]
fn a_script_has_a_thousand_lines(rt: HostRuntime) {
    let mut script = Vec::new(rt.alloc());
    script.resize(1000, b'\n').expect(&rt, "memory");
    assert!(rt; bad_line(&script).is_none());
    for lines in [1001, 1002] {
        script.push(b'\n').expect(&rt, "memory");
        assert!(rt; bad_line(&script) == Some(1001), "{lines}");
    }
}
