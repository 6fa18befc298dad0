//! The message of a fault is its name.

use crate::support::expect;
use ed_codes::TextFault;
use ed_postmortem::PmFault;
use std::alloc::Global;
use std::fmt::Display;
use std::process::Abort;

/// Checks the message of a fault.
fn expect_message(rt: &impl Abort, alloc: Global, fault: &impl Display, name: &str) {
    let message = fault.to_string(alloc).expect(rt, "memory");
    expect(rt, message.as_str() == name, name);
}

#[test]
fn messages_of_text_faults(rt: HostRuntime) {
    let no_row = TextFault::NoRow { place: 3, byte: 37 };
    let open_comment = TextFault::OpenComment { place: 3 };
    expect_message(&rt, rt.alloc(), &no_row, "NoRow");
    expect_message(&rt, rt.alloc(), &open_comment, "OpenComment");
    expect_message(&rt, rt.alloc(), &TextFault::Memory, "Memory");
}

#[test]
fn messages_of_post_mortem_faults(rt: HostRuntime) {
    let (needed, room) = (8, 6);
    let full = PmFault::PaperFull { needed, room };
    expect_message(&rt, rt.alloc(), &PmFault::InItsOwnStore, "InItsOwnStore");
    expect_message(&rt, rt.alloc(), &PmFault::StoreEnd, "StoreEnd");
    expect_message(&rt, rt.alloc(), &full, "PaperFull");
    expect_message(&rt, rt.alloc(), &PmFault::Memory, "Memory");
}
