//! `root` for numbers from the least to the greatest that it accepts.
ghost use Rattle.std.specs.Prelude.{◌≡◌};
ghost use Rattle.ed_maths.specs.Roots.{with_hn};

use crate::support::{
    DISTANCE, NUMBERS, ROOT, add_counting_caller, add_routine, count, entered, expect_right,
    is_outside, stands_with,
};
use ed_library::{Parameters, routine};
use ed_machine::Machine;
use ed_maths::square_root;
use ed_routines::Back;
use ed_words::{Size, Word};
use std::alloc::Global;
use std::process::Abort;

/// The bases of the routine and its caller, and the locations of the number and the root.
#[derive(Clone, Copy)]
struct Site {
    size: Size,
    base: u16,
    caller: u16,
    source: u16,
    target: u16,
}

/// Numbers from 0 on: the distance from each to the next, which is odd, and how many there are.
#[derive(Clone, Copy)]
struct Numbers {
    distance: u32,
    count: u32,
}

/// The least and the greatest number, and those at equal distances between them. That the routine is right for every number
/// is proved.
const ALL_OVER: Numbers = Numbers {
    distance: DISTANCE,
    count: NUMBERS,
};

/// The first numbers, one by one.
const FIRST: Numbers = Numbers {
    distance: 1,
    count: 301,
};

/// Words before and after the routine, on both sizes.
const SITES: [Site; 3] = [
    Site {
        size: Size::Full,
        base: 56,
        caller: 200,
        source: 300,
        target: 310,
    },
    Site {
        size: Size::Small,
        base: 481,
        caller: 60,
        source: 479,
        target: 44,
    },
    Site {
        size: Size::Full,
        base: 900,
        caller: 1000,
        source: 60,
        target: 923,
    },
];

/// The parameters with H and N the two locations.
fn with_hn(source: u16, target: u16) -> Parameters
    ensures { result ≡ with_hn source target }
{
    let zero = Word::of_number(0);
    [
        Word::of_number(2 * u32::from(source)),
        Word::of_number(2 * u32::from(target)),
        zero,
        zero,
        zero,
        zero,
    ]
}

/// Takes the root of a machine that counts.
fn root(rt: &impl Abort, machine: &mut Machine, site: &Site, number: u32) -> Back {
    let Site {
        base,
        source,
        target,
        ..
    } = *site;
    assert!(rt; source != target);
    assert!(rt; stands_with(machine, ROOT, base, &with_hn(source, target)));
    assert!(rt; is_outside(machine, ROOT, base, source));
    assert!(rt; is_outside(machine, ROOT, base, target));
    assert!(rt; machine.word(source).value() == number && number < 65536);
    assert!(rt; machine.orders_done() < 1 << 40);
    square_root(machine, base, source, target)
}

/// What is wrong after the root of a number was taken, if anything.
fn wrong_in(
    rt: &impl Abort,
    machine: &Machine,
    site: &Site,
    number: u32,
    back: Back,
) -> &'static str {
    let Site { caller, target, .. } = *site;
    assert!(rt; caller < 2000 && target < 1024);
    let root = machine.word(target).value();
    if root > 255 || root * root > number || (root + 1) * (root + 1) <= number {
        "no root"
    } else if back.orders != 14 + 8 * u64::from(root) {
        "another count"
    } else if back.at != caller + 2 || machine.counter() != caller + 2 || machine.acc() != 0 {
        "not returned"
    } else {
        ""
    }
}

/// Takes the roots of some numbers at a site, on a machine that counts.
fn take_roots(rt: &impl Abort, alloc: Global, site: &Site, numbers: Numbers) {
    let Site {
        size,
        base,
        caller,
        source,
        target,
    } = *site;
    let mut tape = String::new(alloc);
    add_routine(rt, alloc, &mut tape, routine(ROOT), base, &[source, target]);
    add_counting_caller(rt, &mut tape, caller, base, source, numbers.distance);
    let mut machine = entered(rt, alloc, size, &tape);
    for k in 0..numbers.count {
        let number = k.wrapping_mul(numbers.distance);
        let back = root(rt, &mut machine, site, number);
        let wrong = wrong_in(rt, &machine, site, number, back);
        expect_right(rt, wrong, number);
        count(rt, &mut machine);
    }
}

#[test]
fn every_17th_root_is_taken(rt: HostRuntime) {
    take_roots(&rt, rt.alloc(), &SITES[0], ALL_OVER);
}

#[test]
fn roots_are_taken_at_other_places(rt: HostRuntime) {
    for site in &SITES {
        take_roots(&rt, rt.alloc(), site, FIRST);
    }
}
