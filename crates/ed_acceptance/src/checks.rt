//! `call check` compared with plain steps of its guest.

use crate::support::answer_of;
use ed_answers::enter;
use ed_codes::Code;
use ed_link::link;
use ed_machine::{Machine, Turn};
use ed_report::paper_text;
use ed_syntax::parse;
use ed_words::Size;
use std::alloc::Global;
use std::process::Abort;

/// The most orders of a guest.
const MOST: u32 = 1000;

/// The numbers that the guests print.
const NUMBERS: [u16; 6] = [0, 7, 42, 123, 1949, 65535];

/// The guest of a number: the source of `call check` without its checking routine.
fn guest_of(rt: &impl Abort, alloc: Global, number: u16) -> Machine {
    let source = format!(in alloc;
        "segment main\nhere: A here F\nG p F\nZ F\nvalue: word {number}\nuse print as p with H=value\nenter main\n"
    ).expect(rt, "memory");
    let program = parse(alloc, source.as_bytes()).ok().expect(rt, "a program");
    let linked = link(alloc, Size::Full, &program)
        .ok()
        .expect(rt, "a linked program");
    enter(alloc, Size::Full, &linked).expect(rt, "memory")
}

/// What the guest of a number prints when it is checked, as its plain steps tell: the function of each order up to its
/// stop, and what the order prints.
fn wanted_of(rt: &impl Abort, alloc: Global, number: u16) -> Vec<u8> {
    let mut machine = guest_of(rt, alloc, number);
    let mut codes = Vec::new(alloc);
    for _ in 0..MOST {
        if machine.orders_done() > 1 << 40 {
            break;
        }
        let word = machine.word(machine.counter());
        if let Some(code) = Code::new(word.order().function) {
            codes.push(code).ok().expect(rt, "memory");
        }
        match machine.step() {
            Turn::Printed(code) => codes.push(code).ok().expect(rt, "memory"),
            Turn::Went => {}
            Turn::Stopped | Turn::NoOrder(_) | Turn::NoTape => break,
        }
    }
    paper_text(alloc, &codes).expect(rt, "memory")
}

/// Checks the output of `call check` for a number.
fn expect_checked(rt: &impl Abort, alloc: Global, number: u16) {
    let wanted = wanted_of(rt, alloc, number);
    let line = format!(in alloc; "call check {number}").expect(rt, "memory");
    let answer = answer_of(rt, alloc, &line, b"");
    assert!(rt; answer.status == 0, "{number}");
    assert!(rt; answer.out == wanted, "{number}");
}

#[test]
fn a_checked_guest_is_seen_order_by_order(rt: HostRuntime) {
    for number in &NUMBERS {
        expect_checked(&rt, rt.alloc(), *number);
    }
}
