//! What the teleprinter prints.

use crate::numbers::{code, codes};
use crate::support::expect;
use ed_printer::{Printer, Shift};
use ed_report::{paper_text, papers_text};
use std::alloc::Global;
use std::process::Abort;

/// Checks the bytes of a code.
fn expect_strike(rt: &impl Abort, printer: &mut Printer, number: u8, text: &str) {
    let bytes = printer.strike(code(rt, number));
    assert!(rt; bytes.as_slice() == text.as_bytes(), "code {number}");
}

#[test]
fn the_printer(rt: HostRuntime) {
    let mut printer = Printer::new();
    expect(
        &rt,
        matches!(printer.shift(), Shift::Letters),
        "the first shift",
    );
    expect_strike(&rt, &mut printer, 1, "Q");
    expect_strike(&rt, &mut printer, 11, "");
    expect(
        &rt,
        matches!(printer.shift(), Shift::Figures),
        "the shift of a code",
    );
    expect_strike(&rt, &mut printer, 21, "\u{a3}");
}

/// What the codes of these numbers print.
fn printed(rt: &impl Abort, alloc: Global, numbers: &[u8]) -> Vec<u8> {
    let codes = codes(rt, alloc, numbers);
    paper_text(alloc, &codes).expect(rt, "memory")
}

#[test]
fn the_text_of_a_paper(rt: HostRuntime) {
    let text = printed(&rt, rt.alloc(), &[11, 21, 24, 1, 15, 1]);
    assert!(rt; text.as_slice() == [0xc2, 0xa3, 0x0a, 0x31, 0x51].as_slice());
}

#[test]
fn the_text_of_two_papers(rt: HostRuntime) {
    let first = codes(&rt, rt.alloc(), &[1, 11, 1]);
    let second = codes(&rt, rt.alloc(), &[2, 15, 2]);
    let text = papers_text(rt.alloc(), &first, &second).expect(&rt, "memory");
    assert!(rt; text.as_slice() == b"Q12W".as_slice());
}

/// Blank, carriage return, space and line feed keep the shift: after each of them the code of Q prints 1.
#[test]
fn the_codes_that_print_no_sign_leave_figure_shift(rt: HostRuntime) {
    let text = printed(&rt, rt.alloc(), &[11, 16, 1, 18, 1, 20, 1, 24, 1]);
    assert!(rt; text.as_slice() == b"1\r1 1\n1".as_slice());
}

/// What the codes 0 to 31 print in letter shift, one after the other, except the two that change the shift.
const LETTERS: &str = "PQWERTYUIOJSZKF\rD HNM\nLXGABCV";

/// What they print in figure shift. The code of J prints nothing there.
const FIGURES: &str = "0123456789\"+($\r; \u{a3},.\n)/#-?:=";

/// The code of figure shift.
const FIGURE_SHIFT: u8 = 11;

/// The code of letter shift.
const LETTER_SHIFT: u8 = 15;

/// Checks what the codes 0 to 31 print in a shift, which its own code sets before each of them.
fn expect_each(rt: &impl Abort, alloc: Global, shift: u8, text: &str) {
    let mut struck = Vec::new(alloc);
    for number in 0..32 {
        struck.push(code(rt, shift)).ok().expect(rt, "memory");
        struck.push(code(rt, number)).ok().expect(rt, "memory");
    }
    let printed = paper_text(alloc, &struck).expect(rt, "memory");
    assert!(rt; printed.as_slice() == text.as_bytes(), "shift {shift}");
}

#[test]
fn every_code_in_both_shifts(rt: HostRuntime) {
    expect_each(&rt, rt.alloc(), LETTER_SHIFT, LETTERS);
    expect_each(&rt, rt.alloc(), FIGURE_SHIFT, FIGURES);
}
