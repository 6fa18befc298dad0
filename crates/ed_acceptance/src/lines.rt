//! The lines that report a fault, and the command of a line of words.

use crate::support::words_of;
use ed_codes::TextFault;
use ed_command::{Action, read_words};
use ed_notation::{TapeCause, TapeFault};
use ed_report::{tape_fault, text_fault};
use ed_words::Size;

#[test]
fn the_command_of_a_line_of_words(rt: HostRuntime) {
    let words = words_of(&rt, rt.alloc(), "--store 512 check-tape");
    let command = read_words(rt.alloc(), &words).ok().expect(&rt, "a command");
    let settings = command.settings;
    assert!(rt; matches!(command.action, Action::CheckTape));
    assert!(rt; settings.limit == 10_000_000 && settings.resumes == 0);
    assert!(rt; settings.size == Size::Small && settings.post_mortem.is_none());
}

#[test]
fn the_lines_of_faults(rt: HostRuntime) {
    let fault = TextFault::NoRow {
        place: 4,
        byte: b'%',
    };
    let line = text_fault(rt.alloc(), &fault).expect(&rt, "memory");
    assert!(rt; line.as_slice() == b"byte 4: T1 no row\n".as_slice());
    let fault = TapeFault::At {
        row: 3,
        cause: TapeCause::EntryInLoader,
    };
    let line = tape_fault(rt.alloc(), &fault).expect(&rt, "memory");
    assert!(rt; line.as_slice() == b"row 3: N10 entry in loader\n".as_slice());
}
