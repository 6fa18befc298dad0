//! The twelve faults of meaning: each alone, and each two of them on one line and on two.

use crate::support::{expect, fault_of, is_at};
use ed_syntax::SourceCause::{
    self, AddressRange, Enter, LabelTwice, LabelUnknown, LoaderStore, NoSuchRoutine,
    OutsideSegment, Overlap, ParameterStore, Parameters, SandwichDigit, StoreEnd,
};
use ed_words::Size;
use std::alloc::Global;
use std::process::Abort;

/// The faults of meaning, in the order of their numbers.
const CAUSES: [SourceCause; 12] = [
    LabelTwice,
    LabelUnknown,
    AddressRange,
    OutsideSegment,
    LoaderStore,
    ParameterStore,
    StoreEnd,
    Overlap,
    NoSuchRoutine,
    Parameters,
    Enter,
    SandwichDigit,
];

/// Two lines for each of these faults. The second line has that fault and no other.
const FAULTY: [&str; 12] = [
    "segment c at 100\na: Z F\n",
    "segment d at 110\nA nowhere F\n",
    "segment e at 120\nA a-1000 F\n",
    "use newline as f\nZ F\n",
    "segment g at 43\nZ F\n",
    "segment h at 55\nZ F\n",
    "segment i at 1023\ntext \"AB\"\n",
    "segment j at 56\nZ F\n",
    "segment k at 130\nuse sine as l\n",
    "segment n at 140\nuse print as o\n",
    "segment p at 200\ndata \"A\"\n",
    "segment q at 210\nlong -1\n",
];

/// Lines before a line, that line's number, and the fault that a word of the line has there.
type Setting = (&'static str, u32, Option<SourceCause>);

const SETTINGS: [Setting; 7] = [
    ("segment c at 100\n", 5, None),
    ("use newline as c\n", 5, Some(OutsideSegment)),
    ("segment c at 42\n", 5, Some(LoaderStore)),
    ("segment c at 52\n", 5, Some(ParameterStore)),
    ("segment c at 1023\nZ F\n", 6, Some(StoreEnd)),
    ("segment c at 56\n", 5, Some(Overlap)),
    ("segment c at 100\nenter m\n", 6, Some(Enter)),
];

/// What a line places. A routine's words are in no segment, and an unknown routine has none.
#[derive(Clone, Copy)]
enum Placed {
    Words,
    Routine,
    Nothing,
}

/// A line without the name that it defines: the text before that name and after it, and the fault that the line has
/// everywhere.
type Form = (&'static str, &'static str, Option<SourceCause>);

/// Lines with words of their own.
const WORDS: [Form; 5] = [
    ("", ": Z F\n", None),
    ("", ": A nowhere F\n", Some(LabelUnknown)),
    ("", ": A a-1000 F\n", Some(AddressRange)),
    ("", ": text \"ABCDEFGHIJKLMNOP\"\n", None),
    ("", ": long -1\n", Some(SandwichDigit)),
];

/// Lines that place a routine.
const ROUTINES: [Form; 3] = [
    ("use print as ", "\n", Some(Parameters)),
    ("use print as ", " with N=nowhere\n", Some(LabelUnknown)),
    ("use print as ", " with H=a-1000\n", Some(AddressRange)),
];

/// Lines that place nothing.
const UNKNOWN_ROUTINES: [Form; 3] = [
    ("use sine as ", "\n", Some(NoSuchRoutine)),
    ("use sine as ", " with H=a-1000\n", Some(AddressRange)),
    (
        "use sine as ",
        " with H=a-1000,N=nowhere\n",
        Some(LabelUnknown),
    ),
];

/// Lines of each kind, by what they place.
const FORMS: [(Placed, &[Form]); 3] = [
    (Placed::Words, &WORDS),
    (Placed::Routine, &ROUTINES),
    (Placed::Nothing, &UNKNOWN_ROUTINES),
];

/// Lines after other lines, with the index of the line at fault. Each has more than one fault.
const BEYOND: [(&str, u32); 3] = [
    ("segment c at 1022\nsegment d at 1022\ntext \"ABC\"\n", 6),
    (
        "segment c at 1022\nZ F\nsegment d at 1022\ntext \"ABC\"\n",
        7,
    ),
    ("segment c at 1023\nuse newline as d\nenter d\n", 5),
];

const OVERLAPPING: [(&str, u32); 1] = [(
    "segment c at 1022\nZ F\nsegment d at 1022\ntext \"AB\"\n",
    7,
)];

const UNKNOWN: [(&str, u32); 1] = [("enter m\nenter nowhere\n", 5)];

const IN_LOADER: [(&str, u32); 2] = [
    ("segment c at 43\nenter c\n", 5),
    ("segment c at 43\nenter m\nenter c\n", 6),
];

/// Lines with more than one fault, by the cause of the first.
const OTHERS: [(SourceCause, &[(&str, u32)]); 4] = [
    (StoreEnd, &BEYOND),
    (Overlap, &OVERLAPPING),
    (LabelUnknown, &UNKNOWN),
    (LoaderStore, &IN_LOADER),
];

/// Checks that a program has this fault on a line, or none. Two lines that define m and a at 56 stand before its own.
fn expect_outcome(
    rt: &impl Abort,
    alloc: Global,
    first: &str,
    second: &str,
    line: u32,
    wanted: Option<SourceCause>,
) {
    let text = format!(in alloc; "version 2\nsegment m\na: Z F\n{first}{second}enter m\n");
    let text = text.expect(rt, "memory");
    let fault = fault_of(alloc, Size::Full, &text);
    let told = match wanted {
        Some(cause) => is_at(fault, line, cause),
        None => fault.is_none(),
    };
    expect(rt, told, &text);
}

/// Checks that the second of two lines has a fault, alone and before each pair of lines.
fn expect_alone_and_first(rt: &impl Abort, alloc: Global, lines: &str, cause: SourceCause) {
    expect_outcome(rt, alloc, lines, "", 5, Some(cause));
    for others in &FAULTY {
        expect_outcome(rt, alloc, lines, others, 5, Some(cause));
    }
}

#[test]
fn each_fault_alone_and_two_on_two_lines(rt: HostRuntime) {
    for (lines, cause) in FAULTY.iter().zip(&CAUSES) {
        expect_alone_and_first(&rt, rt.alloc(), lines, *cause);
    }
}

/// The fault that a line has after other lines, given the one that a word has there.
fn given(placed: Placed, of_a_word: Option<SourceCause>) -> Option<SourceCause> {
    match (placed, of_a_word) {
        (Placed::Words, _) => of_a_word,
        (Placed::Routine, Some(OutsideSegment)) => None,
        (Placed::Routine, _) => of_a_word,
        (Placed::Nothing, Some(Enter)) => of_a_word,
        (Placed::Nothing, _) => None,
    }
}

/// The first of three faults by their numbers, if there is any.
fn first_of(
    one: Option<SourceCause>,
    two: Option<SourceCause>,
    three: Option<SourceCause>,
) -> Option<SourceCause> {
    for cause in &CAUSES {
        let cause = Some(*cause);
        if cause == one || cause == two || cause == three {
            return cause;
        }
    }
    None
}

/// Checks a line after other lines, with a name of its own, b, and with one that is defined before, a.
fn expect_on_one_line(
    rt: &impl Abort,
    alloc: Global,
    setting: &Setting,
    form: &Form,
    placed: Placed,
) {
    let (before, line, of_a_word) = *setting;
    let (head, tail, own) = *form;
    let given = given(placed, of_a_word);
    let new = format!(in alloc; "{head}b{tail}").expect(rt, "memory");
    let wanted = first_of(own, None, given);
    expect_outcome(rt, alloc, before, &new, line, wanted);
    let twice = format!(in alloc; "{head}a{tail}").expect(rt, "memory");
    let wanted = first_of(own, Some(LabelTwice), given);
    expect_outcome(rt, alloc, before, &twice, line, wanted);
}

#[test]
fn two_faults_on_one_line(rt: HostRuntime) {
    for (placed, forms) in &FORMS {
        for form in *forms {
            for setting in &SETTINGS {
                expect_on_one_line(&rt, rt.alloc(), setting, form, *placed);
            }
        }
    }
}

#[test]
fn other_faults_on_one_line(rt: HostRuntime) {
    for (cause, rows) in &OTHERS {
        for (lines, line) in *rows {
            expect_outcome(&rt, rt.alloc(), lines, "", *line, Some(*cause));
        }
    }
}
