//! The reports of the checker on tapes.

use crate::numbers::word;
use crate::support::{checked, expect, rows_of};
use ed_notation::{Checked, TapeCause, TapeFault, check_from};
use ed_store::Store;
use ed_words::Size;
use std::alloc::Global;
use std::process::Abort;

/// Stands for a location where a tape places no word: no word has this number.
const NOTHING: u32 = 1 << 17;

/// The word at the location of θ before the check, a tape, the θ that it leaves, a location, the word that it places
/// there, and its cost.
type Row = (u32, &'static str, u32, u16, u32, u64);

const TAPES: [Row; 17] = [
    // The words that a tape places.
    (0, "T64KP32767DE64KPF", 0, 64, 65535, 176),
    (0, "T64KP32767DE64KPF", 0, 65, NOTHING, 176),
    (0, "T64KGKA2#@EZPF", 128, 64, 114_821, 160),
    (0, "T64KGKA2#@EZPF", 128, 63, NOTHING, 160),
    (0, "T45KP100FT64KA1HE64KPF", 0, 45, 200, 230),
    (0, "T45KP100FT64KA1HE64KPF", 0, 64, 114_890, 230),
    // One tape for each way of setting the directive and θ, and for each kind of ending. T 64 K is the directive
    // 20,608, which is 4096 · 5 + 2 · 64.
    // Blank with K sets θ to 4096 · 16 + 2n and the directive; G with K to 4096 · 27 + 2n and the directive, less 2^17.
    (0, "T64K.3KP@E64KPF", 86_150, 64, 86_150, 162),
    (0, "T64KG5KP@E64KPF", 138, 64, 138, 162),
    // A blank pair sets θ to the directive.
    (0, "T64K..P@E64KPF", 20_608, 64, 20_608, 151),
    // Blank with Z sets θ to 65536 + 2n, θ and the directive, here 138 and 20,608.
    (0, "T64KG5K.2ZP@E64KPF", 86_286, 64, 86_286, 194),
    // T with Z adds θ to the directive: θ is 120, and T 4 Z aims at 64.
    (0, "T60KGKT4ZP7FE64KPF", 120, 64, 14, 194),
    // E with Z adds θ, 128, to the entry's address.
    (0, "T64KGKP7FEZPF", 128, 64, 14, 145),
    // A code letter adds the content of 24 and its code: V is 31, and 100 F at 55 is the number 200.
    (0, "T55KP100FT64KA1VE64KPF", 0, 64, 114_890, 230),
    // D is 1, and π is 1 more.
    (0, "T64KP2#FE64KPF", 0, 64, 5, 155),
    (0, "T64KP2DE64KPF", 0, 64, 5, 140),
    // The checker begins with the word at the location of θ.
    (5, "T64KA@E64KPF", 5, 64, 114_693, 131),
    (5, ".ZT64KA@E64KPF", 86_109, 64, 69_725, 154),
];

/// A store with a word at the location of θ.
fn store_with_theta(rt: &impl Abort, alloc: Global, theta: u32) -> Store {
    let mut store = Store::cleared(alloc).expect(rt, "memory");
    store.put_short(42, word(rt, theta));
    store
}

/// Checks a report on a tape of rows of one byte: the word that it places at a location, and the orders.
fn expect_report(
    rt: &impl Abort,
    report: &Checked,
    tape: &str,
    address: u16,
    word: u32,
    orders: u64,
) {
    assert!(rt; address < 1024);
    let placed = match report.word(address) {
        Some(word) => word.value(),
        None => NOTHING,
    };
    expect(
        rt,
        report.entry() == 64 && report.rows() == tape.len(),
        tape,
    );
    expect(rt, report.orders() == orders && placed == word, tape);
}

/// Checks the report on the tape of a row, and its θ.
fn expect_tape(rt: &impl Abort, alloc: Global, row: &Row) {
    let (before, tape, theta, address, word, orders) = *row;
    let store = store_with_theta(rt, alloc, before);
    let told = checked(rt, alloc, Size::Full, &store, tape);
    let report = told.ok().expect(rt, tape);
    expect(rt, report.theta().value() == theta, tape);
    expect_report(rt, &report, tape, address, word, orders);
}

#[test]
fn each_tape_is_checked_to_its_entry(rt: HostRuntime) {
    for row in &TAPES {
        expect_tape(&rt, rt.alloc(), row);
    }
}

/// Checks that a tape is refused at a row, for one of the two causes that the location of a word can have.
fn expect_fault(
    rt: &impl Abort,
    told: &Result<Checked, TapeFault>,
    row: usize,
    cause: TapeCause,
    tape: &str,
) {
    let at = match (told, cause) {
        (
            Err(
                TapeFault::At {
                    row,
                    cause: TapeCause::LoaderStore,
                },
            ),
            TapeCause::LoaderStore,
        ) => Some(*row),
        (
            Err(
                TapeFault::At {
                    row,
                    cause: TapeCause::StoreEnd,
                },
            ),
            TapeCause::StoreEnd,
        ) => Some(*row),
        _ => None,
    };
    expect(rt, at == Some(row), tape);
}

#[test]
fn an_odd_directive_is_refused(rt: HostRuntime) {
    let store = store_with_theta(&rt, rt.alloc(), 5);
    let told = checked(&rt, rt.alloc(), Size::Full, &store, "T59Z");
    expect_fault(&rt, &told, 3, TapeCause::StoreEnd, "T59Z");
}

/// The report on the rest of a tape, or its fault, if a directive that aims at a location of the store is left.
fn checked_from(
    rt: &impl Abort,
    alloc: Global,
    number: u32,
    tape: &str,
) -> Result<Checked, TapeFault> {
    let store = Store::cleared(alloc).expect(rt, "memory");
    let rows = rows_of(rt, alloc, tape);
    let directive = word(rt, number);
    let value = directive.value();
    assert!(rt; value % 2 == 0 && 20_480 <= value && value <= 22_526);
    assert!(rt; rows.len() < 1000);
    check_from(alloc, Size::Full, &store, directive, &rows)
}

/// Checks the report on the rest of a tape by the directive that is left.
fn expect_rest_from(
    rt: &impl Abort,
    alloc: Global,
    number: u32,
    tape: &str,
    placed: (u16, u32),
    orders: u64,
) {
    let (address, word) = placed;
    let told = checked_from(rt, alloc, number, tape);
    let report = told.ok().expect(rt, tape);
    expect_report(rt, &report, tape, address, word, orders);
}

/// The second rest goes on at the last location.
#[test]
fn the_rest_of_a_tape_goes_by_the_directive_that_is_left(rt: HostRuntime) {
    expect_rest_from(&rt, rt.alloc(), 20_680, "PFE64KPF", (100, 0), 84);
    expect_rest_from(&rt, rt.alloc(), 22_526, "P5FE64KPF", (1023, 10), 93);
}

#[test]
fn the_rest_of_a_tape_is_refused_by_the_directive_that_is_left(rt: HostRuntime) {
    let told = checked_from(&rt, rt.alloc(), 20_480, "PF");
    expect_fault(&rt, &told, 1, TapeCause::LoaderStore, "PF");
    let told = checked_from(&rt, rt.alloc(), 22_526, "P5FPF");
    expect_fault(&rt, &told, 4, TapeCause::StoreEnd, "P5FPF");
}
