//! Linking: the punched tape and the words of a source, where it begins, its uses of the library's routines, and the
//! first fault of meaning.

use crate::support::{expect, fault_of, is_at, linked};
use ed_codes::tape_of_text;
use ed_link::Linked;
use ed_syntax::SourceCause::{
    self, AddressRange, Enter, LabelTwice, LabelUnknown, LoaderStore, NoSuchRoutine,
    OutsideSegment, Overlap, ParameterStore, Parameters, SandwichDigit, StoreEnd,
};
use ed_words::Size;
use std::alloc::Global;
use std::process::Abort;

/// The program of seven lines that prints A.
const FIRST: &str = "segment main\nO mark F\nO letter F\nZ F\nmark: * F\nletter: A F\nenter main";

/// Two segments with local names, operands of two names, a long word at an odd location, a routine and data.
const SECOND: &str =
    "version 2\nsegment m\na: A _l F\n_l: A _l D\nP _l-a F\nv: long 17179869185\nsegment t\n_l: A _l F\nS v D\n\
    use newline as n\nG n F\nenter t\ndata \"4F2\"";

/// The same without the order after the routine, which is outside a segment.
const THIRD: &str =
    "version 2\nsegment m\na: A _l F\n_l: A _l D\nP _l-a F\nv: long 17179869185\nsegment t\n_l: A _l F\nS v D\n\
    use newline as n\nenter t\ndata \"4F2\"";

/// Two prints, each with a location of its own.
const TWO_PRINTS: &str =
    "segment main\na: A a F\nG p F\nb: A b F\nG q F\nZ F\nx: word 7\ny: word 12\n\
    use print as p with H=x\nuse print as q with H=y\nenter main\n";

/// Sources, and the tapes that are punched for them.
const PUNCHED: [(&str, &str); 4] = [
    (FIRST, "T56K\nGK\nO3@\nO4@\nZF\n*F\nAF\nE56K\nPF\n"),
    (
        THIRD,
        "T56K\nGK\nA1@\nA1#@\nP1F\nPF\nPD\n.F\nT62K\nGK\nA@\nS60D\nT64K\nGK\nA3F\nT4@\nO5@\nO6@\nPF\n@F\n&F\nE62K\nPF\n4F2\n",
    ),
    (
        "segment m at 100\ntext \"AB\"\nword -1\nsegment n\nA m F\nA n+1 D\nA m+2 D\nA n-1 F\nenter n",
        "T100K\nGK\nAF\nBF\nV2047D\nT103K\nGK\nA100F\nA1#@\nA102D\nA102F\nE103K\nPF\n",
    ),
    (
        "segment m\nsegment n at 512\nZ F\nenter n",
        "T512K\nGK\nZF\nE512K\nPF\n",
    ),
];

/// The words of the first program, with their locations.
const WORDS: [(u16, u32); 5] = [
    (56, 36982),
    (57, 36984),
    (58, 53248),
    (59, 61440),
    (60, 114688),
];

/// Its names, with their locations.
const LABELS: [(&str, u16); 3] = [("main", 56), ("mark", 59), ("letter", 60)];

/// The words at locations of the program of two prints.
const WORDS_OF_PRINTS: [(u16, Option<u32>); 5] = [
    (45, Some(124)),
    (64, Some(114_694)),
    (67, Some(114_810)),
    (115, None),
    (119, Some(114_812)),
];

/// A source, and the line of its first fault.
type Row = (&'static str, u32);

/// Sources without a fault in a store of a size.
const FAULTLESS: [(Size, &str); 6] = [
    (Size::Full, FIRST),
    (Size::Full, THIRD),
    (Size::Full, "segment m at 1023\nZ F\nenter m"),
    (
        Size::Full,
        "segment m at 60\nZ F\nsegment n at 58\ntext \"AB\"\nenter m",
    ),
    (Size::Full, "segment m\nZ F\nenter m\n\ndata \"A\""),
    (Size::Small, "segment m at 511\nZ F\nenter m"),
];

/// Sources that define a name twice.
const LABELS_TWICE: [Row; 1] = [("segment m at 43\nm: Z F\nenter m", 2)];

/// Sources with an unknown name.
const LABELS_UNKNOWN: [Row; 1] = [("segment m\nA nowhere F\nsegment s at 20\nZ F\nenter m", 2)];

/// Sources with an address beyond the largest.
const ADDRESSES: [Row; 1] = [("segment m\nA m+1000 F\nenter m", 2)];

/// Sources with words outside a segment.
const OUTSIDE: [Row; 2] = [(SECOND, 11), ("Z F\nsegment m\nZ F\nenter m", 1)];

/// Sources with a word or an entry below 44.
const IN_LOADER: [Row; 2] = [
    ("segment m\nsegment s at 20\nZ F\nenter m", 3),
    ("segment m at 43\nZ F\nenter m", 2),
];

/// Sources with a word or an entry from 44 to 55.
const IN_PARAMETERS: [Row; 4] = [
    ("segment m at 44\nZ F\nenter m", 2),
    ("segment m at 55\nZ F\nenter m", 2),
    ("segment m at 55\nenter m", 2),
    ("version 2\nsegment m at 55\nlong 5\nenter m", 3),
];

/// Sources with a word after the last location.
const BEYOND: [Row; 2] = [
    ("segment m at 1023\nZ F\nZ F\nenter m", 3),
    ("version 2\nsegment m at 1023\nlong 5\nenter m", 3),
];

/// Sources with two words at one location.
const OVERLAPS: [Row; 1] = [(
    "segment m at 60\nZ F\nsegment n at 58\ntext \"ABC\"\nenter m",
    4,
)];

/// Sources that use a routine that the library doesn't have.
const NO_ROUTINES: [Row; 2] = [
    ("use newlin as n\nenter n", 1),
    ("segment m\nZ F\nx: P F\nuse sine as p\nenter m", 4),
];

/// Sources with a use whose parameters are not those of the routine.
const PARAMETERS: [Row; 4] = [
    ("use newline as n with H=1\nenter n", 1),
    ("segment m\nZ F\nx: P F\nuse print as p\nenter m", 4),
    ("segment m\nZ F\nx: P F\nuse read as p with N=x\nenter m", 4),
    (
        "segment m\nZ F\nx: P F\nuse newline as p with H=x\nenter m",
        4,
    ),
];

/// Sources with `enter` missing, twice or out of order.
const ENTERS: [Row; 6] = [
    ("", 1),
    ("segment m\nZ F\nenter m\nenter m", 4),
    ("segment m\nZ F\nenter m\nZ F", 4),
    ("data \"A\"\nsegment m\nZ F\nenter m", 1),
    ("data \"A\"\nsegment m\nZ F\n", 4),
    ("segment m\nZ F\nenter m\na:", 4),
];

/// Sources with a long word whose sandwich digit is 1.
const SANDWICHES: [Row; 1] = [("version 2\nsegment m\nlong 131072\nenter m", 3)];

/// Sources with a word or an entry after the last of 512 locations.
const BEYOND_512: [Row; 2] = [
    ("segment m at 512\nZ F\nenter m", 2),
    ("segment m at 512\nenter m", 2),
];

/// The sources with a fault, by the size of the store and the cause.
const FAULTS: [(Size, SourceCause, &[Row]); 13] = [
    (Size::Full, LabelTwice, &LABELS_TWICE),
    (Size::Full, LabelUnknown, &LABELS_UNKNOWN),
    (Size::Full, AddressRange, &ADDRESSES),
    (Size::Full, NoSuchRoutine, &NO_ROUTINES),
    (Size::Full, Parameters, &PARAMETERS),
    (Size::Full, Enter, &ENTERS),
    (Size::Full, SandwichDigit, &SANDWICHES),
    (Size::Full, OutsideSegment, &OUTSIDE),
    (Size::Full, LoaderStore, &IN_LOADER),
    (Size::Full, ParameterStore, &IN_PARAMETERS),
    (Size::Full, StoreEnd, &BEYOND),
    (Size::Full, Overlap, &OVERLAPS),
    (Size::Small, StoreEnd, &BEYOND_512),
];

/// Checks that a tape is punched for a source, and that the text of the tape spells its rows.
fn expect_punched(rt: &impl Abort, alloc: Global, text: &str, punched: &str) {
    let linked = linked(rt, alloc, Size::Full, text);
    let tape = linked.text().expect(rt, "memory");
    expect(rt, tape.as_slice() == punched.as_bytes(), punched);
    let rows = linked.rows().expect(rt, "memory");
    let spelled = tape_of_text(alloc, punched.as_bytes()).expect(rt, "a tape");
    expect(rt, spelled.as_slice() == rows.as_slice(), punched);
}

/// Whether a linked program consists of these words with their locations.
fn has_words(linked: &Linked, words: &[(u16, u32)]) -> bool {
    for (placed, wanted) in linked.words.iter().zip(words) {
        let (place, word) = *wanted;
        if placed.place != place || placed.word.value() != word {
            return false;
        }
    }
    linked.words.len() == words.len()
}

/// Whether a linked program has these names with their locations.
fn has_labels(linked: &Linked, labels: &[(&str, u16)]) -> bool {
    for (index, label) in linked.labels.iter().enumerate() {
        if labels.get(index) != Some(&(label.name.text(), label.place)) {
            return false;
        }
    }
    linked.labels.len() == labels.len()
}

#[test]
fn what_is_punched(rt: HostRuntime) {
    for (text, punched) in &PUNCHED {
        expect_punched(&rt, rt.alloc(), text, punched);
    }
}

#[test]
fn the_linked_program(rt: HostRuntime) {
    let linked = linked(&rt, rt.alloc(), Size::Small, FIRST);
    expect(&rt, has_words(&linked, &WORDS), "the words");
    expect(&rt, has_labels(&linked, &LABELS), "the names");
    expect(
        &rt,
        linked.entry == 56 && linked.after.is_empty(),
        "the entry",
    );
}

/// The word at a location of a linked program.
fn word_at(linked: &Linked, place: u16) -> Option<u32> {
    for placed in &linked.words {
        if placed.place == place {
            return Some(placed.word.value());
        }
    }
    None
}

#[test]
fn each_use_has_its_own_parameters(rt: HostRuntime) {
    let linked = linked(&rt, rt.alloc(), Size::Full, TWO_PRINTS);
    for (place, word) in &WORDS_OF_PRINTS {
        assert!(rt; word_at(&linked, *place) == *word, "{place}");
    }
}

/// Checks the first faults of sources, which have one cause.
fn expect_faults(rt: &impl Abort, alloc: Global, size: Size, cause: SourceCause, rows: &[Row]) {
    for (text, line) in rows {
        expect(rt, is_at(fault_of(alloc, size, text), *line, cause), text);
    }
}

#[test]
fn sources_with_a_fault(rt: HostRuntime) {
    for (size, cause, rows) in &FAULTS {
        expect_faults(&rt, rt.alloc(), *size, *cause, rows);
    }
}

#[test]
fn sources_without_a_fault(rt: HostRuntime) {
    for (size, text) in &FAULTLESS {
        expect(&rt, fault_of(rt.alloc(), *size, text).is_none(), text);
    }
}
