//! What the tests share: a source that is linked, its first fault, and checks that show what failed.

use ed_link::{Linked, link};
use ed_syntax::{SourceCause, SourceFault, parse};
use ed_words::Size;
use std::alloc::Global;
use std::process::Abort;

/// A source, linked for a machine of a size.
pub fn linked(rt: &impl Abort, alloc: Global, size: Size, text: &str) -> Linked {
    let program = parse(alloc, text.as_bytes()).ok().expect(rt, "a program");
    link(alloc, size, &program)
        .ok()
        .expect(rt, "a linked program")
}

/// The first fault of a source, of form or of meaning.
pub fn fault_of(alloc: Global, size: Size, text: &str) -> Option<SourceFault> {
    match parse(alloc, text.as_bytes()) {
        Ok(program) => link(alloc, size, &program).err(),
        Err(fault) => Some(fault),
    }
}

/// Whether a fault has this cause and is on this line.
pub fn is_at(fault: Option<SourceFault>, line: u32, cause: SourceCause) -> bool {
    match fault {
        Some(
            SourceFault::At {
                line: at,
                cause: told,
            },
        ) => { at == line && told == cause }
        _ => false,
    }
}

/// Checks that something holds. A failure shows the name of what was checked.
pub fn expect(rt: &impl Abort, told: bool, name: &str) {
    assert!(rt; told, "{name:?}");
}
