//! The locations of a source's lines and names, and the first fault of its names.

ghost use Rattle.std.specs.Prelude.{◌≤◌, length};

use crate::support::{expect, is_at};
use ed_symbols::{Places, resolve};
use ed_syntax::SourceCause::{self, AddressRange, LabelTwice, LabelUnknown};
use ed_syntax::{Name, parse};
use std::alloc::Global;
use std::process::Abort;

/// The program of seven lines that prints A.
const FIRST: &str = "segment main\nO mark F\nO letter F\nZ F\nmark: * F\nletter: A F\nenter main";

/// A source with a routine, a long word and a text, all at odd locations.
const ODD: &str =
    "version 2\nsegment m\n_x: Z F\nuse newline as n\nsegment s\n_x: long 1\nq: text \"ABC\"\nr: word 1";

/// What is asked about a line of a source, and about a name.
#[derive(Clone, Copy)]
enum Question {
    /// The location before the line.
    Place,
    /// The location of the name in the source.
    PlaceOf,
    /// The location of the name that the line sees.
    PlaceSeen,
    /// The segment to which the line belongs, by its number.
    Segment,
    /// The segment of the name that the line sees, if the name is known in that segment alone.
    SegmentSeen,
    /// The location of the name that the line sees, if the name is known in the whole source.
    WholeSeen,
}

use Question::{Place, PlaceOf, PlaceSeen, Segment, SegmentSeen, WholeSeen};

/// A line, the name that a question is about, if any, and the answer, if there is one.
type Row = (u32, &'static str, Option<u32>);

/// The locations before the lines of the first source.
const LINES_OF_FIRST: [Row; 8] = [
    (1, "", Some(56)),
    (2, "", Some(56)),
    (3, "", Some(57)),
    (4, "", Some(58)),
    (5, "", Some(59)),
    (6, "", Some(60)),
    (7, "", Some(61)),
    (8, "", None),
];

/// The locations of its names.
const NAMES_OF_FIRST: [Row; 4] = [
    (1, "mark", Some(59)),
    (1, "letter", Some(60)),
    (1, "main", Some(56)),
    (1, "other", None),
];

/// The locations before the lines of the second source.
const LINES_OF_ODD: [Row; 7] = [
    (2, "", Some(56)),
    (3, "", Some(56)),
    (4, "", Some(57)),
    (5, "", Some(65)),
    (6, "", Some(65)),
    (7, "", Some(68)),
    (8, "", Some(71)),
];

/// The locations of its names.
const NAMES_OF_ODD: [Row; 5] = [
    (1, "m", Some(56)),
    (1, "n", Some(58)),
    (1, "s", Some(65)),
    (1, "q", Some(68)),
    (1, "r", Some(71)),
];

/// The locations of the names that its lines see.
const NAMES_SEEN: [Row; 9] = [
    (2, "_x", Some(56)),
    (3, "_x", Some(56)),
    (5, "_x", Some(66)),
    (8, "_x", Some(66)),
    (8, "q", Some(68)),
    (1, "q", Some(68)),
    (1, "_x", None),
    (4, "_x", None),
    (9, "q", None),
];

/// The segments of its lines.
const SEGMENTS: [Row; 9] = [
    (2, "", Some(1)),
    (3, "", Some(1)),
    (5, "", Some(3)),
    (6, "", Some(3)),
    (7, "", Some(3)),
    (8, "", Some(3)),
    (1, "", None),
    (4, "", None),
    (9, "", None),
];

/// The segments of the names that its lines see.
const SEGMENTS_SEEN: [Row; 6] = [
    (1, "m", Some(1)),
    (2, "m", Some(1)),
    (1, "s", Some(3)),
    (3, "q", Some(3)),
    (2, "_x", Some(1)),
    (8, "_x", Some(3)),
];

/// The location of a name that all its lines see.
const WHOLE_SEEN: [Row; 1] = [(1, "n", Some(58))];

/// Names that its lines don't see at all.
const UNSEEN: [Row; 3] = [(1, "_x", None), (4, "_x", None), (8, "other", None)];

/// What is asked, a source, the question, and its answers.
type Asked = (&'static str, &'static str, Question, &'static [Row]);

const ASKED: [Asked; 12] = [
    ("where lines stand", FIRST, Place, &LINES_OF_FIRST),
    ("where lines stand", ODD, Place, &LINES_OF_ODD),
    (
        "where lines stand",
        "segment a at 1023\nZ F\nZ F",
        Place,
        &[(3, "", Some(1024))],
    ),
    ("where names stand", FIRST, PlaceOf, &NAMES_OF_FIRST),
    ("where names stand", ODD, PlaceOf, &NAMES_OF_ODD),
    (
        "where names stand",
        "a: Z F\na: Z F",
        PlaceOf,
        &[(1, "a", Some(56))],
    ),
    ("where seen names stand", ODD, PlaceSeen, &NAMES_SEEN),
    ("which names all lines see", ODD, WholeSeen, &WHOLE_SEEN),
    ("which names all lines see", ODD, WholeSeen, &UNSEEN),
    ("the segments of lines", ODD, Segment, &SEGMENTS),
    (
        "the segments of seen names",
        ODD,
        SegmentSeen,
        &SEGMENTS_SEEN,
    ),
    ("the segments of seen names", ODD, SegmentSeen, &UNSEEN),
];

/// Sources whose names have no fault.
const FAULTLESS: [&str; 8] = [
    FIRST,
    ODD,
    "segment m\nsegment s at 20\nZ F\nenter m",
    "segment m at 1023\nA m F",
    "A m-57 F\nsegment m",
    "A 32767 F",
    "version 2\nsegment m\n_c: A F\nsegment t\n_c: A _c F",
    "version 2\nsegment m\na: Z F\nb: Z F\nP a+b F\nP b-a F",
];

/// Sources that define a name twice, and the lines of these faults.
const TWICE: [(&str, u32); 5] = [
    ("a: Z F\na: Z F", 2),
    ("segment a\na: Z F", 2),
    ("use newline as a\nsegment a", 2),
    ("segment m\nm: A x F", 2),
    ("version 2\nsegment m\n_c: A F\n_c: A F", 4),
];

/// Sources with an unknown name.
const UNKNOWN: [(&str, u32); 6] = [
    ("segment m\nA nowhere F\nsegment s at 20\nZ F\nenter m", 2),
    ("segment m\nA x F\nm: Z F", 2),
    ("enter m", 1),
    ("use newline as n with H=x", 1),
    ("version 2\nsegment m\n_c: A F\nsegment t\nO _c F", 5),
    ("version 2\nO _c F\n_c: A F", 2),
];

/// Sources with an address out of its range.
const OUT_OF_RANGE: [(&str, u32); 4] = [
    ("use newline as n with H=n+1000", 1),
    ("segment m at 1023\nA m+1 F", 2),
    ("A m-58 F\nsegment m", 1),
    ("version 2\nsegment m\na: Z F\nb: Z F\nP a-b F", 5),
];

/// The sources with a fault, by its cause.
const FAULTS: [(SourceCause, &[(&str, u32)]); 3] = [
    (LabelTwice, &TWICE),
    (LabelUnknown, &UNKNOWN),
    (AddressRange, &OUT_OF_RANGE),
];

/// The names that the source ODD defines, with their locations and segments.
const DEFINED: [(&str, u32, Option<u32>); 7] = [
    ("m", 56, Some(1)),
    ("_x", 56, Some(1)),
    ("n", 58, None),
    ("s", 65, Some(3)),
    ("_x", 66, Some(3)),
    ("q", 68, Some(3)),
    ("r", 71, Some(3)),
];

/// The locations and names of a source.
fn resolved(rt: &impl Abort, alloc: Global, text: &str) -> Places {
    let program = parse(alloc, text.as_bytes()).ok().expect(rt, "a program");
    resolve(alloc, &program).ok().expect(rt, "its names")
}

/// The answer to a question about a line of the source.
fn answer_of(places: &Places, line: u32, question: Question, name: &str) -> Option<u32>
    requires from_one { 1 ≤ line }
    requires of_the_program { line ≤ length places.now.positions }
{
    match question {
        Place => Some(places.line_place(line)),
        Segment => places.line_segment(line),
        PlaceOf => places.label(&Name::new(name)?),
        PlaceSeen => places.label_at(line, &Name::new(name)?),
        SegmentSeen => places.home_at(line, &Name::new(name)?)?.segment,
        WholeSeen => {
            let name = Name::new(name)?;
            match places.home_at(line, &name)?.segment {
                Some(_) => None,
                None => places.label_at(line, &name),
            }
        }
    }
}

/// The answer to a question about a line of a source.
fn answer(alloc: Global, text: &str, line: u32, question: Question, name: &str) -> Option<u32> {
    let program = parse(alloc, text.as_bytes()).ok()?;
    let places = resolve(alloc, &program).ok()?;
    if line == 0 || program.lines.len() < line as usize {
        return None;
    }
    answer_of(&places, line, question, name)
}

/// Checks the answers to a question about lines of a source. A failure shows what was asked.
fn expect_answers(rt: &impl Abort, alloc: Global, asked: &Asked) {
    let (what, text, question, rows) = *asked;
    for (line, name, wanted) in rows {
        let found = answer(alloc, text, *line, question, name);
        assert!(rt; found == *wanted, "{what}: line {line} and {name}");
    }
}

#[test]
fn what_is_known_of_lines_and_names(rt: HostRuntime) {
    for asked in &ASKED {
        expect_answers(&rt, rt.alloc(), asked);
    }
}

#[test]
fn names_with_a_fault_and_without(rt: HostRuntime) {
    for (cause, rows) in &FAULTS {
        for (text, line) in *rows {
            let fault = resolved(&rt, rt.alloc(), text).fault();
            expect(&rt, is_at(fault, *line, *cause), text);
        }
    }
    for text in &FAULTLESS {
        let fault = resolved(&rt, rt.alloc(), text).fault();
        expect(&rt, fault.is_none(), text);
    }
}

#[test]
fn what_a_source_defines(rt: HostRuntime) {
    let places = resolved(&rt, rt.alloc(), ODD);
    let symbols = places.symbols();
    assert!(rt; symbols.len() == DEFINED.len());
    for (found, wanted) in symbols.iter().zip(&DEFINED) {
        let (name, place, segment) = *wanted;
        let is_alike = found.name.text() == name
            && found.place == place
            && found.segment == segment;
        expect(&rt, is_alike, name);
    }
}
