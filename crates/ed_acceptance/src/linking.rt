//! A source of the greatest number of lines.

use crate::support::{expect, repeated};
use std::alloc::Global;
use std::process::Abort;

/// A source of 2,000 lines, and more text: 900 orders of a segment, and lines with nothing but a comment.
fn longest(rt: &impl Abort, alloc: Global, more: &str) -> String {
    let parts = [
        ("segment m\n", 1),
        ("A m+9 F\n", 900),
        ("; nothing\n", 1098),
        ("enter m\n", 1),
        (more, 1),
    ];
    repeated(rt, alloc, &parts)
}

/// The listing of that source.
fn listing_of_longest(rt: &impl Abort, alloc: Global) -> String {
    let mut listing = String::new(alloc);
    for place in 56..956u16 {
        write!(listing, "{place:4} 114818 A65F\n").expect(rt, "memory");
    }
    listing
}

#[test]
fn a_source_of_the_most_lines(rt: HostRuntime) {
    let source = longest(&rt, rt.alloc(), "");
    let parts = [("T56K\nGK\n", 1), ("A9@\n", 900), ("E56K\nPF\n", 1)];
    let tape = repeated(&rt, rt.alloc(), &parts);
    expect(&rt, rt.alloc(), "punch", &source, (0, &tape, ""));
    let listing = listing_of_longest(&rt, rt.alloc());
    expect(&rt, rt.alloc(), "listing", &source, (0, &listing, ""));
}

#[test]
fn a_source_of_a_line_too_many(rt: HostRuntime) {
    let source = longest(&rt, rt.alloc(), ";");
    let fault = "line 2001: S5 too many lines\n";
    expect(&rt, rt.alloc(), "punch", &source, (3, "", fault));
}
