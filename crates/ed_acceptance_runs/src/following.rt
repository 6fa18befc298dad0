//! A guest of the checking routine that is checked, compared with the same program alone.

use crate::support::{CHECK, add_routine, loaded};
use ed_checker::{Checking, FETCH, HIGH, LOW, MIDDLE, check_one, checker_stands, guest_allowed};
use ed_codes::Code;
use ed_library::routine;
use ed_machine::{Machine, Paper, Turn};
use ed_words::Size;
use std::alloc::Global;
use std::process::Abort;

/// The base of the routine. The guest begins at 60, its last order is at 89 and its data begin at 90.
pub const BASE: u16 = 100;

/// How a guest ended: stopped, blocked, refused, or differs; and the number of its orders that were checked.
pub type End = (&'static str, u32);

/// A machine at the entry to a program that has the routine and the guest, with rows left on the tape.
pub fn entered(rt: &impl Abort, alloc: Global, guest: &str, rows: &str, entry: u16) -> Machine {
    let mut tape = String::new(alloc);
    add_routine(rt, alloc, &mut tape, routine(CHECK), BASE, &[60]);
    write!(
        tape,
        "T60K{guest}T89KZFP1DZ5FGFC9DPFPFP50FPDE{entry}KPF{rows}"
    )
    .expect(rt, "memory");
    loaded(rt, alloc, Size::Full, &tape)
}

/// One turn of the routine, if it is at the start of one and can obey its guest's order.
fn turn(machine: &mut Machine, paper: &mut Paper) -> Option<Checking> {
    if machine.size().value() < BASE + 66 || machine.orders_done() >= 1 << 40 {
        return None;
    }
    if paper.room_left() < 2 || !checker_stands(machine, BASE) {
        return None;
    }
    if !guest_allowed(machine, BASE) {
        return None;
    }
    Some(check_one(machine, BASE, paper))
}

/// One order of the guest alone, with the codes that the routine should print for it.
fn alone(rt: &impl Abort, machine: &mut Machine, paper: &mut Paper) -> Turn {
    assert!(rt; machine.counter() < 1024 && machine.orders_done() < 1 << 40);
    if let Some(function) = Code::new(machine.word(machine.counter()).order().function) {
        paper.push(function);
    }
    let turn = machine.step();
    if let Turn::Printed(code) = turn {
        paper.push(code);
    }
    turn
}

/// The guest's accumulator, in the routine's words.
fn guest_acc(machine: &Machine) -> u128 {
    let high = u128::from(machine.long(BASE + HIGH).value());
    let middle = u128::from(machine.long(BASE + MIDDLE).value());
    let low = u128::from(machine.long(BASE + LOW).value());
    (high << 36) + 4 * middle + (low >> 32)
}

/// Whether the guest that is checked is in the same state as the one alone, outside the routine and from location 56
/// upwards: below that the Initial Orders leave what they entered.
fn agree(checked: &Machine, alone: &Machine) -> bool {
    for a in 56..1024 {
        if BASE <= a && a < BASE + 66 {
            continue;
        }
        if checked.word(a) != alone.word(a) || checked.sandwich(a) != alone.sandwich(a) {
            return false;
        }
    }
    guest_acc(checked) == alone.acc()
        && checked.word(BASE + FETCH).order().address == alone.counter()
        && checked.multiplier().value() == alone.multiplier().value()
        && checked.rows_left().len() == alone.rows_left().len()
}

/// Whether the routine's answer is what the order alone did.
fn is_answer(answer: Checking, turn: Turn) -> bool {
    match answer {
        Checking::Went { orders } => orders <= 35 && matches!(turn, Turn::Went | Turn::Printed(_)),
        Checking::Stopped { orders } => orders <= 35 && matches!(turn, Turn::Stopped),
        Checking::Blocked { orders } => orders <= 35
            && matches!(turn, Turn::NoOrder(_) | Turn::NoTape),
    }
}

/// How a guest that is checked ends, if it ends with its next order, which is compared with the same order alone.
fn next_end(
    rt: &impl Abort,
    checked: &mut Machine,
    paper: &mut Paper,
    plain: &mut Machine,
    wanted: &mut Paper,
    done: u32,
) -> Option<End> {
    let Some(answer) = turn(checked, paper) else {
        return Some(("refused", done));
    };
    let turn = alone(rt, plain, wanted);
    if !is_answer(answer, turn) || !agree(checked, plain) || paper.codes() != wanted.codes() {
        return Some(("differs", done));
    }
    match answer {
        Checking::Went { .. } => None,
        Checking::Stopped { .. } => Some(("stopped", done.saturating_add(1))),
        Checking::Blocked { .. } => Some(("blocked", done)),
    }
}

/// How a guest that is checked ends, compared order by order with the same program alone.
fn end_beside(
    rt: &impl Abort,
    checked: &mut Machine,
    paper: &mut Paper,
    plain: &mut Machine,
    wanted: &mut Paper,
) -> End {
    for done in 0..600 {
        if let Some(end) = next_end(rt, checked, paper, plain, wanted, done) {
            return end;
        }
    }
    ("differs", 600)
}

/// Compares a guest order by order, with rows left on its tape, with the same program alone.
pub fn follow(rt: &impl Abort, alloc: Global, guest: &str, rows: &str) -> End {
    let mut checked = entered(rt, alloc, guest, rows, BASE);
    let mut paper = Paper::new(alloc, 1200).expect(rt, "memory");
    let mut plain = entered(rt, alloc, guest, rows, 60);
    let mut wanted = Paper::new(alloc, 1200).expect(rt, "memory");
    end_beside(rt, &mut checked, &mut paper, &mut plain, &mut wanted)
}
