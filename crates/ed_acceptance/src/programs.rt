//! Each program compared with a plain computation.

use crate::support::{answers, expect_no_program, expect_that, prints_number};
use ed_programs::{
    Refusal, add_program, decimals_program, difference_program, fraction_program, greatest_program,
    hello_program, interlude_program, mirror_program, multiply_program, sort_program,
    squares_program,
};
use std::alloc::Global;
use std::process::Abort;

/// Letters that are printed.
const HELLO: [&str; 20] = [
    "A",
    "Z",
    "HELLO",
    "EDSAC",
    "AB",
    "ZA",
    "MAURICE",
    "WILKES",
    "DAVID",
    "WHEELER",
    "STANLEY",
    "GILL",
    "BEATRICE",
    "WORSLEY",
    "CAMBRIDGE",
    "MATHEMATICALLABORATORY",
    "QWERTYUIOPJASDFGHZXCVBNMKL",
    "AAAAAAAAAAAAAAAAAAAA",
    "THEQUICKBROWNFOXJUMPSOVERTHELAZYDOGSXYZ",
    "THEQUICKBROWNFOXJUMPSOVERTHELAZYDOGSWXYZ",
];

/// Two factors, and a number to be squared.
const MULTIPLIED: [(u16, u16, u16); 20] = [
    (7, 8, 12),
    (0, 0, 0),
    (1, 1, 1),
    (0, 65535, 255),
    (65535, 1, 255),
    (65535, 0, 0),
    (1, 65535, 254),
    (255, 257, 2),
    (257, 255, 3),
    (2, 32767, 10),
    (256, 255, 16),
    (3, 21845, 100),
    (100, 655, 99),
    (10, 6553, 31),
    (41, 31, 17),
    (1000, 65, 128),
    (12, 12, 200),
    (5, 5, 250),
    (9999, 6, 77),
    (4, 16383, 181),
];

const ADDED: [(u16, u16); 20] = [
    (1949, 32),
    (0, 0),
    (0, 1),
    (1, 0),
    (9, 1),
    (99, 1),
    (999, 1),
    (9999, 1),
    (0, 65535),
    (65535, 0),
    (65534, 1),
    (1, 65534),
    (32767, 32768),
    (32768, 32767),
    (32768, 0),
    (40000, 25535),
    (12345, 6789),
    (10, 10),
    (1024, 512),
    (60000, 5000),
];

const COMPARED: [(u16, u16); 20] = [
    (1949, 2024),
    (0, 0),
    (0, 1),
    (1, 0),
    (65535, 65535),
    (0, 65535),
    (65535, 0),
    (65534, 65535),
    (65535, 65534),
    (32767, 32768),
    (32768, 32767),
    (32768, 0),
    (0, 32768),
    (9, 10),
    (10, 9),
    (99, 100),
    (1000, 1),
    (1, 10000),
    (12345, 54321),
    (54321, 12345),
];

const EIGHTS: [[u16; 8]; 20] = [
    [310, 42, 7, 1949, 512, 99, 650, 1024],
    [0, 0, 0, 0, 0, 0, 0, 0],
    [65535, 65535, 65535, 65535, 65535, 65535, 65535, 65535],
    [65535, 0, 0, 0, 0, 0, 0, 0],
    [0, 0, 0, 0, 0, 0, 0, 65535],
    [0, 65535, 0, 65535, 0, 65535, 0, 65535],
    [1, 2, 3, 4, 5, 6, 7, 8],
    [8, 7, 6, 5, 4, 3, 2, 1],
    [32767, 32768, 32767, 32768, 0, 1, 2, 3],
    [32768, 32767, 1, 1, 1, 1, 1, 1],
    [0, 1, 0, 1, 0, 1, 0, 1],
    [9, 10, 9, 10, 9, 10, 9, 10],
    [99, 100, 101, 100, 99, 98, 97, 96],
    [999, 1000, 10000, 9999, 1, 2, 3, 4],
    [5, 4, 5, 4, 5, 4, 5, 4],
    [65534, 65535, 65534, 65533, 1, 1, 1, 1],
    [1, 10, 100, 1000, 10000, 1000, 100, 10],
    [40000, 30000, 20000, 10000, 0, 10000, 20000, 30000],
    [7, 7, 7, 7, 7, 7, 7, 8],
    [8, 7, 7, 7, 7, 7, 7, 7],
];

/// Ten numbers, and the same in ascending order.
const TENS: [([u16; 10], &str); 20] = [
    (
        [310, 42, 7, 1949, 0, 512, 99, 7, 650, 1024],
        "0 7 7 42 99 310 512 650 1024 1949",
    ),
    ([0, 0, 0, 0, 0, 0, 0, 0, 0, 0], "0 0 0 0 0 0 0 0 0 0"),
    (
        [
            65535, 65535, 65535, 65535, 65535, 65535, 65535, 65535, 65535, 65535,
        ],
        "65535 65535 65535 65535 65535 65535 65535 65535 65535 65535",
    ),
    ([0, 1, 2, 3, 4, 5, 6, 7, 8, 9], "0 1 2 3 4 5 6 7 8 9"),
    ([9, 8, 7, 6, 5, 4, 3, 2, 1, 0], "0 1 2 3 4 5 6 7 8 9"),
    (
        [65535, 0, 0, 0, 0, 0, 0, 0, 0, 0],
        "0 0 0 0 0 0 0 0 0 65535",
    ),
    (
        [0, 0, 0, 0, 0, 0, 0, 0, 0, 65535],
        "0 0 0 0 0 0 0 0 0 65535",
    ),
    (
        [65535, 0, 65535, 0, 65535, 0, 65535, 0, 65535, 0],
        "0 0 0 0 0 65535 65535 65535 65535 65535",
    ),
    ([1, 1, 2, 2, 3, 3, 4, 4, 5, 5], "1 1 2 2 3 3 4 4 5 5"),
    ([5, 5, 4, 4, 3, 3, 2, 2, 1, 1], "1 1 2 2 3 3 4 4 5 5"),
    (
        [32768, 32767, 32766, 32769, 32770, 1, 2, 3, 4, 5],
        "1 2 3 4 5 32766 32767 32768 32769 32770",
    ),
    (
        [
            65534, 65535, 65533, 65535, 65532, 65535, 65531, 65535, 65530, 65535,
        ],
        "65530 65531 65532 65533 65534 65535 65535 65535 65535 65535",
    ),
    (
        [10, 9, 100, 99, 1000, 999, 10000, 9999, 1, 0],
        "0 1 9 10 99 100 999 1000 9999 10000",
    ),
    ([7, 3, 7, 3, 7, 3, 7, 3, 7, 3], "3 3 3 3 3 7 7 7 7 7"),
    (
        [30939, 51912, 11809, 70, 28, 36265, 13917, 82, 35618, 37],
        "28 37 70 82 11809 13917 30939 35618 36265 51912",
    ),
    (
        [77, 50847, 31, 11, 37, 52, 55, 29, 34033, 59],
        "11 29 31 37 52 55 59 77 34033 50847",
    ),
    (
        [89, 19013, 8708, 57822, 55, 26045, 8075, 36369, 16009, 38132],
        "55 89 8075 8708 16009 19013 26045 36369 38132 57822",
    ),
    (
        [5611, 94, 41, 19, 10191, 58214, 32774, 43425, 5, 46],
        "5 19 41 46 94 5611 10191 32774 43425 58214",
    ),
    (
        [38054, 26, 27252, 8153, 19613, 64312, 42130, 99, 26248, 56],
        "26 56 99 8153 19613 26248 27252 38054 42130 64312",
    ),
    (
        [64479, 55210, 27, 24603, 33343, 27271, 54674, 6, 72, 63],
        "6 27 63 72 24603 27271 33343 54674 55210 64479",
    ),
];

/// A dividend, a divisor, a number of places, and what is printed.
const FRACTIONS: [(u16, u16, u16, &str); 20] = [
    (
        1,
        97,
        96,
        "0.010309278350515463917525773195876288659793814432989690721649484536082474226804123711340206185567",
    ),
    (1, 3, 20, "0.33333333333333333333"),
    (2, 3, 20, "0.66666666666666666666"),
    (1, 7, 30, "0.142857142857142857142857142857"),
    (0, 1, 5, "0.00000"),
    (0, 6553, 5, "0.00000"),
    (65535, 1, 3, "65535.000"),
    (
        65535,
        6553,
        40,
        "10.0007630093087135663055089272089119487257",
    ),
    (
        1,
        6553,
        60,
        "0.000152601861742713261101785441782389745154890889668853960018",
    ),
    (
        6552,
        6553,
        60,
        "0.999847398138257286738898214558217610254845109110331146039981",
    ),
    (22, 7, 20, "3.14285714285714285714"),
    (355, 113, 30, "3.141592920353982300884955752212"),
    (1, 2, 1, "0.5"),
    (1, 2, 0, "0."),
    (9, 9, 4, "1.0000"),
    (10, 9, 10, "1.1111111111"),
    (1000, 999, 12, "1.001001001001"),
    (1, 1024, 12, "0.000976562500"),
    (65535, 2, 2, "32767.50"),
    (5000, 6000, 8, "0.83333333"),
];

/// Letters, and the same backwards.
const MIRRORED: [(&str, &str); 20] = [
    ("A", "A"),
    ("Z", "Z"),
    ("AB", "BA"),
    ("BA", "AB"),
    ("EDSAC", "CASDE"),
    ("CASDE", "EDSAC"),
    ("LEVEL", "LEVEL"),
    ("OTTO", "OTTO"),
    ("ABC", "CBA"),
    ("XYZ", "ZYX"),
    ("WILKES", "SEKLIW"),
    ("GILL", "LLIG"),
    ("WHEELER", "RELEEHW"),
    ("WORSLEY", "YELSROW"),
    ("RENWICK", "KCIWNER"),
    ("MAURICE", "ECIRUAM"),
    ("HARTREE", "EERTRAH"),
    ("CAMBRIDGE", "EGDIRBMAC"),
    ("ABCDEFGHI", "IHGFEDCBA"),
    ("ZZZZZZZZZ", "ZZZZZZZZZ"),
];

/// Numbers that the interlude doubles.
const DOUBLED: [u16; 20] = [
    34, 35, 49, 50, 51, 52, 53, 54, 64, 98, 99, 100, 101, 127, 128, 254, 255, 256, 509, 510,
];

/// Letters that `hello` refuses, and why.
const NO_HELLO: [(&str, Refusal); 4] = [
    ("", Refusal::Length),
    ("THEQUICKBROWNFOXJUMPSOVERTHELAZYDOGSVWXYZ", Refusal::Length),
    ("Hello", Refusal::Letter),
    ("ONE MORE", Refusal::Letter),
];

/// Letters that `mirror` refuses, and why.
const NO_MIRROR: [(&str, Refusal); 4] = [
    ("", Refusal::Length),
    ("ABCDEFGHIJ", Refusal::Length),
    ("Edsac", Refusal::Letter),
    ("AB#CD", Refusal::Letter),
];

/// Factors of too large a product, and numbers of too large a square.
const NO_PRODUCTS: [(u16, u16, u16); 4] = [
    (256, 256, 1),
    (1, 1, 256),
    (65535, 65535, 0),
    (0, 0, 65535),
];

/// Numbers of too large a sum.
const NO_SUMS: [(u16, u16); 4] = [(65535, 1), (1, 65535), (32768, 32768), (65535, 65535)];

/// Divisors that are 0 or too large.
const NO_DIVISORS: [u16; 3] = [0, 6554, 65535];

/// Numbers that the interlude has no place for.
const NO_PLACES: [u16; 4] = [0, 33, 511, 65535];

/// Numbers that are not eight.
const NO_EIGHTS: [&[u16]; 3] = [&[], &[1, 2, 3, 4, 5, 6, 7], &[1, 2, 3, 4, 5, 6, 7, 8, 9]];

/// Numbers that are not ten.
const NO_TENS: [&[u16]; 2] = [
    &[1, 2, 3, 4, 5, 6, 7, 8, 9],
    &[1, 2, 3, 4, 5, 6, 7, 8, 9, 10, 11],
];

#[test]
fn other_letters_are_refused(rt: HostRuntime) {
    for (letters, cause) in &NO_HELLO {
        let program = hello_program(rt.alloc(), letters);
        expect_that(&rt, program == Err(*cause), letters);
    }
    for (letters, cause) in &NO_MIRROR {
        let program = mirror_program(rt.alloc(), letters);
        expect_that(&rt, program == Err(*cause), letters);
    }
}

#[test]
fn products_and_sums_out_of_range_are_refused(rt: HostRuntime) {
    for row in &NO_PRODUCTS {
        let (left, right, root) = *row;
        let program = multiply_program(rt.alloc(), left, right, root);
        expect_no_program(&rt, program, Refusal::Number, &[left, right, root]);
    }
    for row in &NO_SUMS {
        let (first, second) = *row;
        let program = add_program(rt.alloc(), first, second);
        expect_no_program(&rt, program, Refusal::Number, &[first, second]);
    }
}

#[test]
fn divisors_and_places_out_of_range_are_refused(rt: HostRuntime) {
    for lower in &NO_DIVISORS {
        let program = fraction_program(rt.alloc(), 1, *lower, 5);
        expect_no_program(&rt, program, Refusal::Divisor, &[*lower]);
    }
    for number in &NO_PLACES {
        let program = interlude_program(rt.alloc(), *number);
        expect_no_program(&rt, program, Refusal::Place, &[*number]);
    }
}

#[test]
fn not_eight_and_not_ten_numbers_are_refused(rt: HostRuntime) {
    for numbers in &NO_EIGHTS {
        let program = greatest_program(rt.alloc(), numbers);
        expect_no_program(&rt, program, Refusal::Count, numbers);
    }
    for numbers in &NO_TENS {
        let program = sort_program(rt.alloc(), numbers);
        expect_no_program(&rt, program, Refusal::Count, numbers);
    }
}

#[test]
fn hello_prints_its_letters(rt: HostRuntime) {
    for letters in &HELLO {
        let wanted = format!(in rt.alloc(); "{letters}\r\n").expect(&rt, "memory");
        let program = hello_program(rt.alloc(), letters);
        answers(&rt, rt.alloc(), "run", program, &wanted);
    }
}

/// Checks that a product and a square are printed.
fn expect_product(rt: &impl Abort, alloc: Global, row: (u16, u16, u16)) {
    let (left, right, root) = row;
    let (product, square) = (left as u32 * right as u32, root as u32 * root as u32);
    let wanted = format!(in alloc; "{product}\r\n{square}\r\n").expect(rt, "memory");
    let program = multiply_program(alloc, left, right, root);
    answers(rt, alloc, "run", program, &wanted);
}

#[test]
fn multiply_prints_its_products(rt: HostRuntime) {
    for row in &MULTIPLIED {
        expect_product(&rt, rt.alloc(), *row);
    }
}

#[test]
fn add_prints_its_sum(rt: HostRuntime) {
    for row in &ADDED {
        let (first, second) = *row;
        let program = add_program(rt.alloc(), first, second);
        prints_number(&rt, rt.alloc(), program, first as u32 + second as u32);
    }
}

#[test]
fn difference_prints_the_distance(rt: HostRuntime) {
    for row in &COMPARED {
        let (first, second) = *row;
        let distance = if first < second {
            second - first
        } else {
            first - second
        };
        let program = difference_program(rt.alloc(), first, second);
        prints_number(&rt, rt.alloc(), program, u32::from(distance));
    }
}

#[test]
fn greatest_prints_the_greatest(rt: HostRuntime) {
    for numbers in &EIGHTS {
        let mut greatest: u16 = 0;
        for number in numbers {
            greatest = greatest.max(*number);
        }
        let program = greatest_program(rt.alloc(), numbers);
        prints_number(&rt, rt.alloc(), program, u32::from(greatest));
    }
}

/// A line for each of some numbers.
fn lines_of(rt: &impl Abort, alloc: Global, numbers: &str) -> String {
    let mut text = String::new(alloc);
    for number in numbers.split_whitespace() {
        write!(text, "{number}\r\n").expect(rt, "memory");
    }
    text
}

#[test]
fn sort_prints_in_order(rt: HostRuntime) {
    for (numbers, sorted) in &TENS {
        let wanted = lines_of(&rt, rt.alloc(), sorted);
        let program = sort_program(rt.alloc(), numbers);
        answers(&rt, rt.alloc(), "run", program, &wanted);
    }
}

#[test]
fn fraction_prints_its_figures(rt: HostRuntime) {
    for row in &FRACTIONS {
        let (upper, lower, places, wanted) = *row;
        let program = fraction_program(rt.alloc(), upper, lower, places);
        answers(&rt, rt.alloc(), "run", program, wanted);
    }
}

#[test]
fn mirror_prints_backwards(rt: HostRuntime) {
    for (letters, wanted) in &MIRRORED {
        let tape = mirror_program(rt.alloc(), letters);
        answers(&rt, rt.alloc(), "tape", tape, wanted);
    }
}

#[test]
fn a_hundred_decimals_and_nine_squares_are_printed(rt: HostRuntime) {
    let wanted = "2.\r\n\
    7182818284 5904523536 0287471352 6624977572 4709369995\r\n\
    9574966967 6277240766 3035354759 4571382178 5251664274\r\n";
    let program = decimals_program(rt.alloc());
    answers(&rt, rt.alloc(), "run", program, wanted);
    let wanted = "01\r\n04\r\n09\r\n16\r\n25\r\n36\r\n49\r\n64\r\n81\r\n";
    let program = squares_program(rt.alloc());
    answers(&rt, rt.alloc(), "tape1", program, wanted);
}

/// What the parts of the interlude on a number report.
fn lines_of_parts(rt: &impl Abort, alloc: Global, number: u16) -> String {
    let figures = if number < 100 { 2 } else { 3 };
    let double = 2 * u32::from(number);
    let rows = 35 + figures;
    let entered = 372 + 9 * figures;
    format!(in alloc;
        "entry 100 after {entered} orders, {rows} rows\n\
        returned for {double} after {} orders\n\
        entry 64 after {} orders, {} rows\n",
        entered + 5,
        entered + 285,
        rows + 26
    )
    .expect(rt, "memory")
}

#[test]
fn interlude_doubles_its_number(rt: HostRuntime) {
    for number in &DOUBLED {
        let wanted = lines_of_parts(&rt, rt.alloc(), *number);
        let tape = interlude_program(rt.alloc(), *number);
        answers(&rt, rt.alloc(), "parts", tape, &wanted);
        let tape = interlude_program(rt.alloc(), *number);
        answers(&rt, rt.alloc(), "tape", tape, "HI");
    }
}
