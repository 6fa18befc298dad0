//! Single orders of the machine, on worked values.

use crate::support::{expect, image_of, machine_after, obey, rows_of, start_with, word_at};
use ed_codes::Code;
use ed_machine::Machine;
use ed_words::Size;
use ed_words::Size::{Full, Small};
use std::alloc::Global;
use std::process::Abort;

/// The orders from location 0, the words at 30 to 33, and the accumulator after the orders.
///
/// One of 1 in units of 2^-70 is the word 1, added to the most significant digits and shifted right by 54 places: three
/// times 15 (R F) and once 9 (R 128 F). The word 1, subtracted and shifted in the same way, is -1, which is 2^71 - 1.
/// Collation adds: the common digits of 6 and 3 are 2, and the accumulator holds 1 already. The word 65536 is the
/// accumulator's sign, which a shift left by one place drops.
const ACCUMULATORS: [(&str, [u32; 4], u128); 20] = [
    ("H30F V30F", [65_536, 0, 0, 0], 1 << 70),
    ("H30F N30F", [65_536, 0, 0, 0], 1 << 70),
    ("A30F R0F", [65_536, 0, 0, 0], 2_361_147_212_637_803_642_880),
    ("A30F R0F R0F R0F R128F", [1, 0, 0, 0], 1),
    ("A30F R0F R0F R0F R128F L0F", [1, 0, 0, 0], 8192),
    ("A30F R0F R0F R0F R128F Y0F", [1, 0, 0, 0], 34_359_738_369),
    ("S30F R0F R0F R0F R128F", [1, 0, 0, 0], (1 << 71) - 1),
    ("S30F R0F R0F R0F R128F R0D", [1, 0, 0, 0], (1 << 71) - 1),
    ("A30F R1024F", [1, 0, 0, 0], 1 << 42),
    ("A30F L1024F", [1, 0, 0, 0], 1 << 66),
    ("H30F C31F", [3, 6, 0, 0], 1 << 55),
    ("H30D C32D", [5, 3, 6, 1], 18_014_673_387_388_928),
    ("H30D V32D", [1, 1, 3, 2], 549_761_056_780),
    ("A30D", [5, 3, 0, 0], 54_043_539_125_829_632),
    ("A31D", [5, 3, 0, 0], 54_043_539_125_829_632),
    ("A30F S31F", [1, 2, 0, 0], (1 << 71) - (1 << 54)),
    ("A30F T31F", [1, 2, 0, 0], 0),
    ("A30F U31F X0F", [1, 2, 0, 0], 1 << 54),
    ("H32F A30F C31F", [1, 6, 3, 0], 3 << 54),
    ("A30F L0D", [65_536, 0, 0, 0], 0),
];

/// The orders, the words, and the number of the code that is printed last.
///
/// O prints the top of a short or a long word. 114688 is the word of A F, with the code 28, and 20485 one with the code
/// of T, 5.
const PRINTED: [(&str, [u32; 4], u8); 4] = [
    ("O30F", [114_688, 20_485, 0, 0], 28),
    ("O31F", [114_688, 20_485, 0, 0], 5),
    ("O30D", [114_688, 20_485, 0, 0], 5),
    ("O31D", [114_688, 20_485, 0, 0], 5),
];

/// The orders, the words, and the counter.
type Counted = (&'static str, [u32; 4], u16);

/// On a store of 1024 locations.
const COUNTERS: [Counted; 8] = [
    // The jumps at 0 and at -1. 65536 as the most significant digits of the accumulator is exactly -1, which is
    // negative; 0 is not.
    ("A30F E5F", [0, 0, 0, 0], 5),
    ("A30F G5F", [0, 0, 0, 0], 2),
    ("A30F E5F", [65_536, 0, 0, 0], 2),
    ("A30F G5F", [65_536, 0, 0, 0], 5),
    ("A30F E5F", [65_535, 0, 0, 0], 5),
    ("A30F G5F", [131_071, 0, 0, 0], 5),
    // The counter goes from the last location to 0. 106496 is the word of X F, which the last order finds there.
    ("A30F T511F E511F X0F", [106_496, 0, 0, 0], 512),
    ("A30F T1023F E1023F X0F", [106_496, 0, 0, 0], 0),
];

/// On a store of 512 locations.
const COUNTERS_IN_512: [Counted; 2] = [
    ("A30F T511F E511F X0F", [106_496, 0, 0, 0], 0),
    ("A30F T1023F E1023F X0F", [106_496, 0, 0, 0], 0),
];

/// Checks the counter after orders on a store of a size.
fn expect_counter(
    rt: &impl Abort,
    alloc: Global,
    size: Size,
    orders: &str,
    data: [u32; 4],
    counter: u16,
) {
    let machine = machine_after(rt, alloc, size, orders, data);
    expect(rt, machine.counter() == counter, orders);
}

/// Checks the accumulator after orders.
fn expect_accumulator(rt: &impl Abort, alloc: Global, orders: &str, data: [u32; 4], number: u128) {
    let machine = machine_after(rt, alloc, Full, orders, data);
    expect(rt, machine.acc() == number, orders);
}

#[test]
fn each_order_leaves_the_accumulator_that_is_due(rt: HostRuntime) {
    for (orders, data, number) in &ACCUMULATORS {
        expect_accumulator(&rt, rt.alloc(), orders, *data, *number);
    }
}

/// Checks the code that orders print last.
fn expect_printed(rt: &impl Abort, alloc: Global, orders: &str, data: [u32; 4], code: u8) {
    let machine = machine_after(rt, alloc, Full, orders, data);
    expect(rt, machine.last_printed() == Code::new(code), orders);
}

#[test]
fn each_order_prints_what_is_due(rt: HostRuntime) {
    for (orders, data, code) in &PRINTED {
        expect_printed(&rt, rt.alloc(), orders, *data, *code);
    }
}

#[test]
fn each_order_leaves_the_counter_that_is_due(rt: HostRuntime) {
    for (orders, data, counter) in &COUNTERS {
        expect_counter(&rt, rt.alloc(), Full, orders, *data, *counter);
    }
    for (orders, data, counter) in &COUNTERS_IN_512 {
        expect_counter(&rt, rt.alloc(), Small, orders, *data, *counter);
    }
}

/// The orders from location 0, the words at 30 to 33, and two words that are due after the orders, each after its
/// location.
type Left = (&'static str, [u32; 4], [(u16, u32); 2]);

/// On a store of 1024 locations.
const WORDS: [Left; 6] = [
    // F reads the last printed code back.
    ("F33F", [114_688, 5, 7, 9], [(32, 7), (33, 0)]),
    ("O30F F33F", [114_688, 5, 7, 9], [(32, 7), (33, 114_688)]),
    ("F32D", [114_688, 5, 7, 9], [(32, 0), (33, 0)]),
    ("O30F F32D", [114_688, 5, 7, 9], [(32, 0), (33, 114_688)]),
    ("O30F F33D", [114_688, 5, 7, 9], [(32, 0), (33, 114_688)]),
    // An address goes modulo the size.
    ("A30F U578F", [106_496, 0, 0, 0], [(66, 0), (578, 106_496)]),
];

/// On a store of 512 locations.
const WORDS_IN_512: [Left; 1] = [("A30F U578F", [106_496, 0, 0, 0], [(66, 106_496), (578, 0)])];

/// Whether two words of the machine are the wanted ones.
fn has_words(rt: &impl Abort, machine: &Machine, wanted: &[(u16, u32); 2]) -> bool {
    for (place, number) in wanted {
        if word_at(rt, machine, *place) != *number {
            return false;
        }
    }
    true
}

/// Checks two words after orders on a store of a size.
fn expect_words(
    rt: &impl Abort,
    alloc: Global,
    size: Size,
    orders: &str,
    data: [u32; 4],
    wanted: &[(u16, u32); 2],
) {
    let machine = machine_after(rt, alloc, size, orders, data);
    expect(rt, has_words(rt, &machine, wanted), orders);
}

/// Checks the words of a table on a store of a size.
fn expect_all_words(rt: &impl Abort, alloc: Global, size: Size, rows: &[Left]) {
    for (orders, data, wanted) in rows {
        expect_words(rt, alloc, size, orders, *data, wanted);
    }
}

#[test]
fn each_order_leaves_the_words_that_are_due(rt: HostRuntime) {
    expect_all_words(&rt, rt.alloc(), Full, &WORDS);
    expect_all_words(&rt, rt.alloc(), Small, &WORDS_IN_512);
}

/// The rows that the order I reads, each to the least significant digits of a short location, or of the upper word of a
/// long one, whose other word and sandwich digit become 0: the order, and the words at 30 and 31 after it.
const READS: [(&str, [(u16, u32); 2]); 4] = [
    ("I30F", [(30, 31), (31, 7)]),
    ("I31F", [(30, 7), (31, 31)]),
    ("I30D", [(30, 0), (31, 31)]),
    ("I31D", [(30, 0), (31, 31)]),
];

/// Checks that an order I on a cleared machine reads one of two rows.
fn expect_read(rt: &impl Abort, alloc: Global, order: &str, wanted: &[(u16, u32); 2]) {
    let image = image_of(rt, alloc, order, [7, 7, 7, 7]);
    let mut machine = Machine::cleared(alloc).expect(rt, "memory");
    start_with(rt, &mut machine, &image, rows_of(rt, alloc, "VA"));
    obey(rt, &mut machine, order);
    expect(rt, has_words(rt, &machine, wanted), order);
    expect(rt, machine.rows_left().len() == 1, order);
}

#[test]
fn an_order_i_reads_a_row(rt: HostRuntime) {
    for (order, wanted) in &READS {
        expect_read(&rt, rt.alloc(), order, wanted);
    }
}

/// Orders that set each register.
const REGISTERS: &str = "H30F A31F O30F";

/// Checks the registers that these orders leave, and a word of the image that was started after them.
fn expect_registers(rt: &impl Abort, machine: &Machine) {
    expect(rt, machine.counter() == 0, "the counter");
    expect(rt, machine.acc() == 3 << 54, "the accumulator");
    let multiplier = machine.multiplier().value();
    expect(rt, multiplier == 114_688 << 18, "the multiplier");
    expect(rt, machine.orders_done() == 3, "the orders");
    expect(rt, machine.last_printed() == Code::new(28), "the last code");
    expect(rt, word_at(rt, machine, 31) == 2, "the word at 31");
}

/// Start sets the counter and the tape, and does not change the registers. 28 is the code of the word 114688.
#[test]
fn a_second_start_leaves_the_registers(rt: HostRuntime) {
    let mut machine = machine_after(&rt, rt.alloc(), Full, REGISTERS, [114_688, 3, 0, 0]);
    let image = image_of(&rt, rt.alloc(), REGISTERS, [1, 2, 3, 4]);
    start_with(&rt, &mut machine, &image, Vec::new(rt.alloc()));
    expect_registers(&rt, &machine);
}

/// Orders that put the digit 1 between the words at 20 and 21: it is shifted out of the word 1.
const SANDWICH: &str = "A31F R0D T20D";

/// Start writes words, and no sandwich digit.
#[test]
fn a_second_start_leaves_the_sandwich_digits(rt: HostRuntime) {
    let mut machine = machine_after(&rt, rt.alloc(), Full, SANDWICH, [0, 1, 0, 0]);
    expect(&rt, machine.sandwich(20), "the digit before Start");
    let image = image_of(&rt, rt.alloc(), REGISTERS, [1, 2, 3, 4]);
    start_with(&rt, &mut machine, &image, Vec::new(rt.alloc()));
    expect(&rt, machine.sandwich(20), "the digit after Start");
}
