//! How guests of the checking routine end.

use crate::following::{BASE, entered, follow};
use crate::support::expect;
use std::alloc::Global;
use std::process::Abort;

/// Orders that set the accumulator: to 0, to all 71 digits 1, to the least significant two digits alone, and to a
/// positive and a negative number of many digits.
const ACCUMULATORS: [(&str, u32); 5] = [
    ("", 0),
    ("S90FRFRFRFRF", 5),
    ("A90FRFRFRFR256F", 5),
    ("H91FV91FA92DRD", 4),
    ("H92FV91FS90DRD", 4),
];

/// Each order that a guest may have except Z, short and long.
const ORDERS: [&str; 28] = [
    "A90F", "A92D", "S90F", "S92D", "H90F", "H92D", "V90F", "V92D", "N90F", "N92D", "T94F", "T94D",
    "U94F", "U94D", "C90F", "C92D", "RD", "R4F", "LD", "LF", "E89F", "G89F", "I94F", "I94D",
    "O90F", "O92D", "XF", "YF",
];

/// Guests with the rows left on their tapes, and how they end.
const GUESTS: [(&str, &str, &str, u32); 16] = [
    // Both jumps, taken and not taken.
    ("E62FZFS90FE61FG66FZFA90FG61FZF", "", "stopped", 7),
    // The same location is printed, and read into.
    ("O90FI90FO90FI94DO94DZF", "57", "stopped", 6),
    // A jump back, a hundred times.
    ("T98FA96FS97FU96FE60FZF", "", "stopped", 506),
    // The least significant digits of an accumulator of 71 digits 1 are shifted to the upper end.
    ("S90FRFRFRFRFLDLFLFLFLFLFT94DZF", "", "stopped", 13),
    // No order, and no row.
    ("A90FP5F", "", "blocked", 1),
    ("I94FI94FZF", "3", "blocked", 1),
    // What the routine cannot obey: F, and orders and jumps that use its locations.
    ("XFF94FZF", "", "refused", 1),
    ("A100FZF", "", "refused", 0),
    ("T165FZF", "", "refused", 0),
    ("T164DZF", "", "refused", 0),
    ("E130FZF", "", "refused", 0),
    ("E62DZFZF", "", "refused", 0),
    // A jump with the spare digit, and an order in the last location of the store and in the one before it.
    ("E1086FZFZF", "", "refused", 0),
    ("E1023FZF", "", "refused", 1),
    ("E1022FZF", "", "blocked", 1),
    // Locations just outside of it.
    ("A99FS166FA166DA98DZF", "", "stopped", 5),
];

/// The guest's accumulator is kept in the words 60 to 65 of the routine.
#[test]
fn a_guest_begins_with_a_clear_accumulator(rt: HostRuntime) {
    let machine = entered(&rt, rt.alloc(), "ZF", "", BASE);
    for place in 60..66u16 {
        assert!(rt; machine.word(BASE + place).value() == 0, "place {place}");
    }
}

/// Checks how a guest ends, with rows left on its tape.
fn expect_end(rt: &impl Abort, alloc: Global, guest: &str, rows: &str, end: (&str, u32)) {
    let (how, orders) = follow(rt, alloc, guest, rows);
    let (wanted, count) = end;
    expect(rt, how == wanted, guest);
    expect(rt, orders == count, guest);
}

#[test]
fn guests_come_to_their_ends(rt: HostRuntime) {
    for (guest, rows, how, orders) in &GUESTS {
        expect_end(&rt, rt.alloc(), guest, rows, (how, *orders));
    }
}

/// Checks that a guest stops after an order, before which other orders set the accumulator.
fn expect_stop(rt: &impl Abort, alloc: Global, before: &str, order: &str, orders: u32) {
    let guest = format!(in alloc; "{before}{order}ZFZF").expect(rt, "memory");
    expect_end(rt, alloc, &guest, "9", ("stopped", orders));
}

#[test]
fn each_order_is_checked(rt: HostRuntime) {
    for row in &ACCUMULATORS {
        let (before, count) = *row;
        for order in &ORDERS {
            expect_stop(&rt, rt.alloc(), before, order, count + 2);
        }
    }
}
