//! Each program that reads a list from its tape, compared with a plain computation.

use crate::support::{answers, expect_no_program, prints_number};
use ed_programs::{Refusal, celsius_program, total_program};
use std::alloc::Global;
use std::process::Abort;

/// Temperatures in degrees Fahrenheit, and a number below 32 that ends them.
const TEMPERATURES: [(&[u16], u16); 20] = [
    (&[212, 100, 50, 33], 0),
    (&[], 0),
    (&[], 31),
    (&[32], 31),
    (&[65535], 0),
    (&[32, 33, 34, 35, 36, 37, 38, 39, 40, 41, 42], 1),
    (&[43, 44, 45, 46, 47, 48, 49, 50, 51, 52, 53], 10),
    (
        &[
            65535, 65534, 65533, 65532, 65531, 65530, 65529, 65528, 65527,
        ],
        31,
    ),
    (
        &[
            65526, 65525, 65524, 65523, 65522, 65521, 65520, 65519, 65518,
        ],
        9,
    ),
    (&[451], 30),
    (&[32768, 32767, 32769], 2),
    (&[98, 98, 98, 98], 3),
    (&[99, 999, 9999], 9),
    (&[100, 1000, 10000], 10),
    (&[41, 50, 59, 68, 77, 86, 95, 104, 113], 0),
    (&[40, 49, 58, 67, 76, 85, 94, 103, 112], 0),
    (&[42, 51, 60, 69, 78, 87, 96, 105, 114], 0),
    (&[59049, 59040, 59041, 58999], 29),
    (&[16416, 32800, 49184, 65472], 25),
    (
        &[
            10000, 20000, 30000, 40000, 50000, 60000, 10001, 20001, 30001, 40001, 50001, 60001,
            10002, 20002, 30002, 40002, 50002, 60002, 99,
        ],
        0,
    ),
];

/// Numbers whose sum is below 65,536.
const ADDED: [&[u16]; 20] = [
    &[310, 42, 7, 149],
    &[],
    &[1],
    &[65535],
    &[65534, 1],
    &[1, 65534],
    &[32768, 32767],
    &[32767, 32768],
    &[9, 1],
    &[99, 1],
    &[999, 1],
    &[9999, 1],
    &[10, 100, 1000, 10000],
    &[1, 2, 3, 4, 5, 6, 7, 8, 9, 10],
    &[21845, 21845, 21845],
    &[13107, 13107, 13107, 13107, 13107],
    &[40000, 25535],
    &[1949, 1951, 1952, 1953, 1956, 1958],
    &[512, 256, 128, 64, 32, 16, 8, 4, 2, 1],
    &[
        10, 1, 1, 1, 1, 1, 1, 1, 1, 1, 1, 1, 1, 1, 1, 1, 1, 1, 1, 1, 1, 1, 1, 1, 1, 1, 1, 1, 1, 1,
        1, 1, 1, 1, 1, 1, 1, 1, 1, 1, 1, 1, 1, 1, 1, 1, 1, 1, 1, 1, 1, 1, 1, 1, 1,
    ],
];

/// Temperatures that are refused, and why.
const NO_TEMPERATURES: [(&[u16], u16, Refusal); 5] = [
    (&[212], 32, Refusal::End),
    (&[], 65535, Refusal::End),
    (&[31], 0, Refusal::End),
    (&[212, 0, 50], 0, Refusal::End),
    (
        &[
            10000, 20000, 30000, 40000, 50000, 60000, 10001, 20001, 30001, 40001, 50001, 60001,
            10002, 20002, 30002, 40002, 50002, 60002, 100,
        ],
        0,
        Refusal::Line,
    ),
];

/// Numbers that are not added, and why.
const NOT_ADDED: [(&[u16], Refusal); 5] = [
    (&[0], Refusal::End),
    (&[1, 0, 2], Refusal::End),
    (&[65535, 1], Refusal::Number),
    (&[65535, 65535, 65535, 0], Refusal::Number),
    (&[1; 56], Refusal::Line),
];

/// A line for each temperature in degrees Celsius.
fn celsius_lines(rt: &impl Abort, alloc: Global, temperatures: &[u16]) -> String {
    let mut lines = String::new(alloc);
    for temperature in temperatures {
        let above = u32::from(temperature.saturating_sub(32));
        write!(lines, "{}\r\n", above * 5 / 9).expect(rt, "memory");
    }
    lines
}

#[test]
fn celsius_prints_whole_degrees(rt: HostRuntime) {
    for (temperatures, end) in &TEMPERATURES {
        let wanted = celsius_lines(&rt, rt.alloc(), temperatures);
        let program = celsius_program(rt.alloc(), temperatures, *end);
        answers(&rt, rt.alloc(), "run", program, &wanted);
    }
}

#[test]
fn total_prints_the_sum(rt: HostRuntime) {
    for numbers in &ADDED {
        let mut sum: u32 = 0;
        for number in *numbers {
            sum = sum.saturating_add(u32::from(*number));
        }
        let program = total_program(rt.alloc(), numbers);
        prints_number(&rt, rt.alloc(), program, sum);
    }
}

#[test]
fn other_lists_are_refused(rt: HostRuntime) {
    for (temperatures, end, cause) in &NO_TEMPERATURES {
        let program = celsius_program(rt.alloc(), temperatures, *end);
        expect_no_program(&rt, program, *cause, temperatures);
    }
    for (numbers, cause) in &NOT_ADDED {
        expect_no_program(&rt, total_program(rt.alloc(), numbers), *cause, numbers);
    }
}
