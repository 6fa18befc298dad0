//! Post-mortems: what is printed of words that a tape left in the store, and the refusals.

use crate::numbers::code;
use crate::support::{expect, first_difference, loaded, started};
use ed_codes::byte_of;
use ed_machine::{Machine, Paper};
use ed_postmortem::{PmFault, post_mortem};
use ed_words::Size;
use std::alloc::Global;
use std::process::Abort;

/// The number of words that can be printed at once on a machine of 1,024 locations.
const MOST: u32 = 880;

/// The room that is enough for these.
const ROOM: usize = 9680;

/// A post-mortem of a machine.
fn printed(
    rt: &impl Abort,
    alloc: Global,
    machine: &mut Machine,
    first: u16,
    count: u16,
    paper: &mut Paper,
) -> Result<u64, PmFault> {
    assert!(rt; machine.orders_done() < 1 << 40);
    post_mortem(alloc, machine, first, count, paper)
}

/// Post-mortems that are refused on a paper with room for six codes: the size of the store, the first location, the
/// number of words, and the fault.
const REFUSED: [(Size, u16, u16, &str); 6] = [
    (Size::Full, 143, 1, "its own store"),
    (Size::Full, 143, 1000, "its own store"),
    (Size::Full, 1000, 25, "store end"),
    (Size::Full, 65_535, 65_535, "store end"),
    (Size::Small, 144, 369, "store end"),
    (Size::Full, 144, 1, "8 codes and room for 6"),
];

/// Why a post-mortem is not printed, in a few words; "none" for one that is printed.
fn name_of(answer: Result<u64, PmFault>) -> &'static str {
    match answer {
        Ok(_) => "none",
        Err(PmFault::InItsOwnStore) => "its own store",
        Err(PmFault::StoreEnd) => "store end",
        Err(PmFault::PaperFull { needed: 8, room: 6 }) => "8 codes and room for 6",
        Err(PmFault::PaperFull { .. }) => "another room",
        Err(PmFault::Memory) => "no memory",
    }
}

/// Tapes, the first location, the number of words, the codes that are printed, and the orders.
type Printed = (&'static str, u16, u16, &'static [u8], u64);

const PRINTED: [Printed; 3] = [
    ("E144KPF", 144, 1, &[15, 0, 11, 0, 15, 17, 18, 24], 3443),
    (
        "T144KO66F*2047DE144KPF",
        144,
        2,
        &[
            15, 9, 11, 6, 6, 15, 17, 18, 24, 15, 15, 11, 2, 0, 4, 7, 15, 19, 18, 24,
        ],
        3639,
    ),
    ("E144KPF", 1024, 0, &[], 3358),
];

/// Checks on a cleared machine that a post-mortem is refused and that it changes nothing.
fn expect_refused(rt: &impl Abort, alloc: Global, size: Size, first: u16, count: u16, fault: &str) {
    let mut paper = Paper::new(alloc, 6).expect(rt, "memory");
    let mut machine = Machine::cleared_of(alloc, size).expect(rt, "memory");
    let answer = printed(rt, alloc, &mut machine, first, count, &mut paper);
    expect(rt, name_of(answer) == fault, "the refusal");
    let is_same = machine.orders_done() == 0 && machine.word(0).value() == 0;
    expect(rt, is_same, "the machine");
    expect(rt, paper.codes().is_empty(), "the paper");
}

#[test]
fn refusals_come_in_their_order_and_change_nothing(rt: HostRuntime) {
    for (size, first, count, fault) in &REFUSED {
        expect_refused(&rt, rt.alloc(), *size, *first, *count, fault);
    }
}

/// Checks what a post-mortem prints of the words of a tape, and its cost.
fn expect_print(rt: &impl Abort, alloc: Global, row: &Printed) {
    let (tape, first, count, codes, orders) = *row;
    let mut paper = Paper::new(alloc, codes.len()).expect(rt, "memory");
    let mut machine = started(rt, alloc, Size::Full, tape);
    let _entry = loaded(rt, &mut machine);
    let before = machine.orders_done();
    let answer = printed(rt, alloc, &mut machine, first, count, &mut paper);
    expect(rt, answer.ok() == Some(orders), tape);
    let obeyed = machine.orders_done().checked_sub(before);
    expect(rt, obeyed == Some(orders), tape);
    expect(rt, first_difference(paper.codes(), codes).is_none(), tape);
}

#[test]
fn words_are_printed_at_their_cost(rt: HostRuntime) {
    for row in &PRINTED {
        expect_print(&rt, rt.alloc(), row);
    }
}

/// Checks the number of lines that a machine of 512 locations prints.
fn expect_lines(rt: &impl Abort, alloc: Global, first: u16, count: u16, lines: usize) {
    let mut paper = Paper::new(alloc, ROOM).expect(rt, "memory");
    let mut machine = Machine::cleared_of(alloc, Size::Small).expect(rt, "memory");
    let answer = printed(rt, alloc, &mut machine, first, count, &mut paper);
    expect(rt, answer.is_ok(), "the answer");
    let codes = paper.codes().len();
    expect(rt, codes / 8 == lines && codes % 8 == 0, "the lines");
}

#[test]
fn a_machine_of_512_locations_prints_up_to_its_end(rt: HostRuntime) {
    expect_lines(&rt, rt.alloc(), 144, 368, 368);
    expect_lines(&rt, rt.alloc(), 511, 1, 1);
    expect_lines(&rt, rt.alloc(), 512, 0, 0);
}

/// The function, the number and the length of a word.
fn parts(word: u32) -> (u8, u32, bool) {
    ((word / 4096 % 32) as u8, word % 4096 / 2, word % 2 == 1)
}

/// Adds the item of a word to a tape.
fn add_item(rt: &impl Abort, tape: &mut String, word: u32) {
    let (function, number, long) = parts(word);
    let letter = char::from(byte_of(code(rt, function), false));
    let end = if long { 'D' } else { 'F' };
    write!(tape, "{letter}{number}{end}").expect(rt, "memory");
}

/// The tape that places `count` words, the number `from` and those after it, from location 144 upwards.
fn tape_of_words(rt: &impl Abort, alloc: Global, from: u32, count: u32) -> String {
    let mut tape = String::new(alloc);
    tape.push_str("T144K").expect(rt, "memory");
    for word in from..from.saturating_add(count) {
        add_item(rt, &mut tape, word);
    }
    tape.push_str("E144KPF").expect(rt, "memory");
    tape
}

/// Adds the codes that print a word.
fn add_codes(rt: &impl Abort, alloc: Global, codes: &mut Vec<u8>, word: u32) {
    let (function, number, long) = parts(word);
    let end = if long { 19 } else { 17 };
    let digits = format!(in alloc; "{number}").expect(rt, "memory");
    codes
        .extend_from_slice(&[15, function, 11])
        .expect(rt, "memory");
    for digit in digits.bytes() {
        let code = digit.wrapping_sub(b'0');
        codes.push(code).ok().expect(rt, "memory");
    }
    codes
        .extend_from_slice(&[15, end, 18, 24])
        .expect(rt, "memory");
}

/// The codes that print these words.
fn codes_of_words(rt: &impl Abort, alloc: Global, from: u32, count: u32) -> Vec<u8> {
    let mut codes = Vec::new(alloc);
    for word in from..from.saturating_add(count) {
        add_codes(rt, alloc, &mut codes, word);
    }
    codes
}

/// A machine on which the tape of these words was loaded.
fn machine_of_words(rt: &impl Abort, alloc: Global, from: u32, count: u16) -> Machine {
    let tape = tape_of_words(rt, alloc, from, u32::from(count));
    let mut machine = started(rt, alloc, Size::Full, &tape);
    let entry = loaded(rt, &mut machine);
    expect(rt, matches!(entry, Ok((144, _))), &tape);
    machine
}

/// What a post-mortem prints of these words.
fn paper_of_words(rt: &impl Abort, alloc: Global, from: u32, count: u16) -> Paper {
    let mut paper = Paper::new(alloc, ROOM).expect(rt, "memory");
    let mut machine = machine_of_words(rt, alloc, from, count);
    let answer = printed(rt, alloc, &mut machine, 144, count, &mut paper);
    expect(rt, answer.is_ok(), "the answer");
    paper
}

/// Checks what a post-mortem prints of these words.
fn expect_words(rt: &impl Abort, alloc: Global, from: u32, count: u16) {
    let codes = codes_of_words(rt, alloc, from, u32::from(count));
    let paper = paper_of_words(rt, alloc, from, count);
    let differs = first_difference(paper.codes(), &codes);
    assert!(rt; differs.is_none(), "{differs:?} from {from} on");
}

/// Every fourth block of words, so that each function is among them. That each word is printed is proved.
#[test]
fn words_of_every_function_are_printed(rt: HostRuntime) {
    for block in 0..38u32 {
        let from = block * 4 * MOST;
        let count = MOST.min(131_072 - from);
        expect_words(&rt, rt.alloc(), from, count as u16);
    }
}
