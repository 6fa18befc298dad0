//! Each kind of operand at its edges, in a first segment, in one at a base, and in the settings of a use.

use crate::support::{expect, fault_of, is_at, linked};
use ed_syntax::SourceCause::{self, AddressRange, LabelUnknown, NotAStatement, NumberRange};
use ed_words::Size;
use std::alloc::Global;
use std::process::Abort;

/// A source without one operand, on line 3: the text before it and after it, and the tape of the source up to that
/// operand's item and from it.
struct Frame {
    head: &'static str,
    tail: &'static str,
    punched_head: &'static str,
    punched_tail: &'static str,
}

/// The operand is in the word at 56, where m is; _l is 57.
const FIRST: Frame = Frame {
    head: "version 2\nsegment m\nA ",
    tail: " F\n_l: Z F\nsegment t at 1023\nZ F\nsegment s at 0\nenter m\n",
    punched_head: "T56K\nGK\nA",
    punched_tail: "\nZF\nT1023K\nGK\nZF\nE56K\nPF\n",
};

/// The operand is in the word at 100, where m is; _l is 101.
const AT_100: Frame = Frame {
    head: "version 2\nsegment m at 100\nA ",
    tail: " F\n_l: Z F\nsegment t at 1023\nZ F\nsegment s at 0\nenter m\n",
    punched_head: "T100K\nGK\nA",
    punched_tail: "\nZF\nT1023K\nGK\nZF\nE100K\nPF\n",
};

/// The operand gives a parameter of the routine at 56, which is p; m and _l are 107 and in a segment of their own.
const IN_A_USE: Frame = Frame {
    head: "version 2\n\nuse print as p with H=",
    tail: "\nsegment m\n_l: Z F\nsegment t at 1023\nZ F\nsegment s at 0\nenter m\n",
    punched_head: "T45K\nP",
    punched_tail: "\nT56K\nGK\n",
};

/// Operands, and their items on the tape.
const ITEMS_OF_FIRST: [(&str, &str); 20] = [
    ("", "F"),
    ("0", "F"),
    ("1023", "1023F"),
    ("32767", "32767F"),
    ("m", "@"),
    ("m+0", "@"),
    ("m+967", "967@"),
    ("m-1", "55F"),
    ("m-56", "F"),
    ("t", "1023F"),
    ("t-1023", "F"),
    ("s", "F"),
    ("s+1023", "1023F"),
    ("_l", "1@"),
    ("_l+966", "967@"),
    ("_l-57", "F"),
    ("t-s", "1023F"),
    ("t+s", "1023F"),
    ("m-m", "F"),
    ("_l+m", "113F"),
];

const ITEMS_AT_100: [(&str, &str); 16] = [
    ("", "F"),
    ("32767", "32767F"),
    ("m", "@"),
    ("m+923", "923@"),
    ("m-1", "99F"),
    ("m-100", "F"),
    ("t", "1023F"),
    ("s+1023", "1023F"),
    ("_l", "1@"),
    ("_l+922", "923@"),
    ("_l-1", "@"),
    ("_l-2", "99F"),
    ("_l-101", "F"),
    ("t-_l", "922F"),
    ("_l+_l", "202F"),
    ("_l-m", "1F"),
];

const ITEMS_IN_A_USE: [(&str, &str); 14] = [
    ("0", "F"),
    ("1023", "1023F"),
    ("32767", "32767F"),
    ("p", "56F"),
    ("p+967", "1023F"),
    ("p-56", "F"),
    ("m", "107F"),
    ("m+916", "1023F"),
    ("m-107", "F"),
    ("t", "1023F"),
    ("s", "F"),
    ("t-s", "1023F"),
    ("s+t", "1023F"),
    ("m-p", "51F"),
];

/// Operands that are refused, for each cause.
const NUMBERS_IN_FIRST: [&str; 3] = ["32768", "t-1024", "s+1024"];

const ADDRESSES_IN_FIRST: [&str; 9] = [
    "m+968", "m-57", "t+1", "s-1", "_l+967", "_l-58", "s-t", "t+m", "m-_l",
];

const UNKNOWN_IN_FIRST: [&str; 2] = ["_k", "m-_k"];

const ADDRESSES_AT_100: [&str; 5] = ["m+924", "m-101", "_l+923", "_l-102", "m-t"];

const NOTHING_IN_A_USE: [&str; 1] = [""];

const NUMBERS_IN_A_USE: [&str; 1] = ["32768"];

const ADDRESSES_IN_A_USE: [&str; 8] = [
    "p+968", "p-57", "m+917", "m-108", "t+1", "s-1", "s-t", "t+p",
];

const UNKNOWN_IN_A_USE: [&str; 2] = ["_l", "m-_l"];

/// Operands within their edges.
const PUNCHED: [(&Frame, &[(&str, &str)]); 3] = [
    (&FIRST, &ITEMS_OF_FIRST),
    (&AT_100, &ITEMS_AT_100),
    (&IN_A_USE, &ITEMS_IN_A_USE),
];

/// Operands beyond their edges, by the cause for which they are refused.
const REFUSED: [(&Frame, SourceCause, &[&str]); 8] = [
    (&FIRST, NumberRange, &NUMBERS_IN_FIRST),
    (&FIRST, AddressRange, &ADDRESSES_IN_FIRST),
    (&FIRST, LabelUnknown, &UNKNOWN_IN_FIRST),
    (&AT_100, AddressRange, &ADDRESSES_AT_100),
    (&IN_A_USE, NotAStatement, &NOTHING_IN_A_USE),
    (&IN_A_USE, NumberRange, &NUMBERS_IN_A_USE),
    (&IN_A_USE, AddressRange, &ADDRESSES_IN_A_USE),
    (&IN_A_USE, LabelUnknown, &UNKNOWN_IN_A_USE),
];

/// The source of an operand.
fn source_of(rt: &impl Abort, alloc: Global, frame: &Frame, operand: &str) -> String {
    format!(in alloc; "{}{operand}{}", frame.head, frame.tail).expect(rt, "memory")
}

/// Checks what is punched for an operand: how the tape of its source begins.
fn expect_item(rt: &impl Abort, alloc: Global, frame: &Frame, operand: &str, item: &str) {
    let text = source_of(rt, alloc, frame, operand);
    let wanted = format!(in alloc; "{}{item}{}", frame.punched_head, frame.punched_tail);
    let wanted = wanted.expect(rt, "memory");
    let tape = linked(rt, alloc, Size::Full, &text)
        .text()
        .expect(rt, "memory");
    expect(rt, tape.starts_with(wanted.as_bytes()), &text);
}

/// Checks what is punched for operands.
fn punched(rt: &impl Abort, alloc: Global, frame: &Frame, cases: &[(&str, &str)]) {
    for (operand, item) in cases {
        expect_item(rt, alloc, frame, operand, item);
    }
}

/// Checks that operands are refused for a cause.
fn refused(rt: &impl Abort, alloc: Global, frame: &Frame, cause: SourceCause, operands: &[&str]) {
    for operand in operands {
        let text = source_of(rt, alloc, frame, operand);
        let fault = fault_of(alloc, Size::Full, &text);
        expect(rt, is_at(fault, 3, cause), &text);
    }
}

#[test]
fn operands_within_their_edges(rt: HostRuntime) {
    for (frame, cases) in &PUNCHED {
        punched(&rt, rt.alloc(), frame, cases);
    }
}

#[test]
fn operands_beyond_their_edges(rt: HostRuntime) {
    for (frame, cause, operands) in &REFUSED {
        refused(&rt, rt.alloc(), frame, *cause, operands);
    }
}
