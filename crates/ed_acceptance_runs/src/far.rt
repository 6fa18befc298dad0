//! A session on an endless loop, far forward and often back.

use crate::support::{LOOP, expect, session_on};
use ed_stepper::{BackFault, MoveEnd, Moved, Session};
use std::process::Abort;

/// Whether a move left the session at a location, after a number of orders.
fn is_at(moved: &Moved, at: u16, done: u64) -> bool {
    moved.at == at && moved.done == done
}

/// The latest copy is that after 1,966,080 orders, 30 times 65,536, so each move back obeys at most 2,000 orders. From
/// the start, or from the earliest copy, they would be 4,000,000,000 in all, which no test has the time for.
#[test]
fn far_on_and_often_back(rt: HostRuntime) {
    let mut session = session_on(&rt, rt.alloc(), LOOP, 2_000_000);
    let moved = session.go(1_968_080);
    expect(&rt, matches!(moved.end, MoveEnd::Went), "far on");
    for _ in 0..2_000 {
        expect(&rt, session.back(1).is_ok(), "often back");
    }
    let moved = session.go(100_000);
    expect(&rt, is_at(&moved, 64, 2_000_000), "on");
    expect(&rt, matches!(moved.end, MoveEnd::Limit), "to the limit");
}

/// Checks that a session which has obeyed this number of orders doesn't go back so far.
fn expect_too_far(rt: &impl Abort, session: &mut Session, orders: u64, done: u64) {
    let told = match session.back(orders) {
        Err(BackFault::TooFar { done }) => Some(done),
        Ok(_) | Err(BackFault::Memory) => None,
    };
    expect(rt, told == Some(done), "too far");
}

#[test]
fn a_session_goes_back_to_its_start_and_no_further(rt: HostRuntime) {
    let mut session = session_on(&rt, rt.alloc(), LOOP, 1_000);
    expect(&rt, matches!(session.go(90).end, MoveEnd::Went), "on");
    expect_too_far(&rt, &mut session, 91, 90);
    let is_back = match session.back(90) {
        Ok(moved) => is_at(&moved, 0, 0) && matches!(moved.end, MoveEnd::Back),
        Err(_) => false,
    };
    expect(&rt, is_back, "back");
    expect_too_far(&rt, &mut session, 1, 0);
    let moved = session.until_entry();
    expect(&rt, matches!(moved.end, MoveEnd::Entered), "the entry");
}
