//! What the tests share: a machine that has a routine and calls it; machines and sessions that begin at Start on a tape.
ghost use Rattle.std.specs.Prelude.{◌≡◌, ◌<◌, ◌≤◌, IsTrue};
ghost use Rattle.ed_library.specs.Entries.{how_many};
ghost use Rattle.ed_routines.specs.Catalogue.{with_h};
ghost use Rattle.ed_routines.specs.Standing.{IsOutside, IsLoadedAt};

use ed_codes::tape_of_text;
use ed_initial::{Loaded, begin, is_started, load};
use ed_library::{Parameters, Routine, routine};
use ed_machine::Machine;
use ed_notation::{Item, spellable, text_of_items};
use ed_routines::stands;
use ed_stepper::Session;
use ed_words::{Size, Word};
use std::alloc::Global;
use std::process::Abort;

/// The tape that prints A.
pub const LETTER: &str = "T64KGKO2@ZFAFEZPF";

/// The tape that jumps to itself.
pub const LOOP: &str = "T64KGKE@EZPF";

/// The index of `check` in the catalogue.
pub const CHECK: u16 = 0;

/// The index of `divide`.
pub const DIVIDE: u16 = 1;

/// The index of `newline`.
pub const NEWLINE: u16 = 2;

/// The index of `print`.
pub const PRINT: u16 = 3;

/// The index of `read`.
pub const READ: u16 = 4;

/// The index of `root`.
pub const ROOT: u16 = 5;

/// The bases of a routine and its caller, and the location that the routine is given.
#[derive(Clone, Copy)]
pub struct Places {
    pub size: Size,
    pub base: u16,
    pub caller: u16,
    /// The location after the call.
    pub back: u16,
    pub h: u16,
}

/// Even and odd bases, on both sizes.
pub const PLACES: [Places; 3] = [
    Places {
        size: Size::Full,
        base: 56,
        caller: 200,
        back: 202,
        h: 300,
    },
    Places {
        size: Size::Small,
        base: 461,
        caller: 60,
        back: 62,
        h: 460,
    },
    Places {
        size: Size::Full,
        base: 901,
        caller: 1021,
        back: 1023,
        h: 44,
    },
];

/// Checks that something holds. A failure shows the name of what was checked.
pub fn expect(rt: &impl Abort, told: bool, name: &str) {
    assert!(rt; told, "{name}");
}

/// Checks that nothing is wrong after a routine was called with a number.
pub fn expect_right(rt: &impl Abort, wrong: &str, number: u32) {
    assert!(rt; wrong.is_empty(), "{number}: {wrong}");
}

/// The parameters with H = 2h.
fn with_h(h: u16) -> Parameters
    ensures { result ≡ with_h h }
{
    let zero = Word::of_number(0);
    [
        Word::of_number(2 * u32::from(h)),
        zero,
        zero,
        zero,
        zero,
        zero,
    ]
}

/// Whether the routine with an index is at a base with H = 2h, and is called. No routine here is above 1000.
pub fn stands_at(machine: &Machine, index: u16, base: u16, h: u16) -> bool
    requires { index < how_many }
    ensures { IsTrue result → IsLoadedAt index (with_h h) base machine.now }
{
    stands_with(machine, index, base, &with_h(h))
}

/// Whether the routine with an index is at a base with these parameters, and is called. No routine here is above 1000.
pub fn stands_with(machine: &Machine, index: u16, base: u16, parameters: &Parameters) -> bool
    requires { index < how_many }
    ensures { IsTrue result → IsLoadedAt index parameters.now base machine.now }
{
    let routine = routine(index);
    if base < 56 || base > 1000 {
        return false;
    }
    if base + routine.length() > machine.size().value() {
        return false;
    }
    stands(machine, &routine, base, parameters)
}

/// Whether a location is outside the routine with an index at a base.
pub fn is_outside(machine: &Machine, index: u16, base: u16, place: u16) -> bool
    requires { index < how_many }
    ensures { IsTrue result → IsOutside index base place machine.now }
{
    let length = routine(index).length();
    place < machine.size().value() && (place < base || length <= place && base <= place - length)
}

/// Adds the text of an item.
fn add_item(rt: &impl Abort, alloc: Global, tape: &mut String, item: Item) {
    assert!(rt; spellable(&item));
    let text = text_of_items(alloc, &[item]).expect(rt, "memory");
    for byte in &text {
        tape.push(char::from(*byte)).expect(rt, "memory");
    }
}

/// Adds the items that set the parameters from H on to locations, and those of a routine from a base upwards.
pub fn add_routine(
    rt: &impl Abort,
    alloc: Global,
    tape: &mut String,
    routine: Routine,
    base: u16,
    parameters: &[u16],
) {
    tape.push_str("T45K").expect(rt, "memory");
    for place in parameters {
        write!(tape, "P{place}F").expect(rt, "memory");
    }
    write!(tape, "T{base}KGK").expect(rt, "memory");
    for place in 0..routine.length() {
        add_item(rt, alloc, tape, routine.item(place));
    }
}

/// Adds the items that place a number at a location.
pub fn add_number(rt: &impl Abort, tape: &mut String, place: u16, number: u32) {
    let half = number / 2;
    let length = if number % 2 == 1 { 'D' } else { 'F' };
    write!(tape, "T{place}KP{half}{length}").expect(rt, "memory");
}

/// Adds the items of a caller of the routine at a base, and of the entry to it.
pub fn add_caller(rt: &impl Abort, tape: &mut String, caller: u16, base: u16) {
    write!(tape, "T{caller}KA{caller}FG{base}FE{caller}KPF").expect(rt, "memory");
}

/// The distance of the numbers that a counting program goes through. It divides 65,535, so that the least and the greatest
/// number are among them; that the routines are right for every number is proved.
pub const DISTANCE: u32 = 17;

/// How many such numbers there are from 0 to 65,535.
pub const NUMBERS: u32 = 3856;

/// Adds the items of the number 0 at a location and of a caller that adds a distance, which is odd, to the number after
/// each call and calls the routine again, in six orders.
pub fn add_counting_caller(
    rt: &impl Abort,
    tape: &mut String,
    caller: u16,
    base: u16,
    place: u16,
    distance: u32,
) {
    let half = distance / 2;
    write!(
        tape,
        "T{place}KPFT{caller}KGKA@G{base}FA{place}FA6@T{place}FE@P{half}DE{caller}KPF"
    )
    .expect(rt, "memory");
}

/// Obeys the six orders after a call by such a caller.
pub fn count(rt: &impl Abort, machine: &mut Machine) {
    assert!(rt; machine.orders_done() < 1 << 40);
    machine.obey_next(6);
}

/// A machine that has the routine and has just called it, with a number at h, and rows left on the tape.
pub fn called(
    rt: &impl Abort,
    alloc: Global,
    routine: Routine,
    places: &Places,
    number: u32,
    rows: &str,
) -> Machine {
    let Places {
        size,
        base,
        caller,
        h,
        ..
    } = *places;
    let mut tape = String::new(alloc);
    add_routine(rt, alloc, &mut tape, routine, base, &[h]);
    add_number(rt, &mut tape, h, number);
    add_caller(rt, &mut tape, caller, base);
    tape.push_str(rows).expect(rt, "memory");
    let machine = entered(rt, alloc, size, &tape);
    assert!(rt; machine.counter() == base);
    machine
}

/// A machine that has obeyed the first two orders of a tape's program, which are those of a call.
pub fn entered(rt: &impl Abort, alloc: Global, size: Size, tape: &str) -> Machine {
    let mut machine = loaded(rt, alloc, size, tape);
    assert!(rt; machine.orders_done() < 1 << 40);
    machine.obey_next(2);
    machine
}

/// A machine that has loaded a tape to its entry.
pub fn loaded(rt: &impl Abort, alloc: Global, size: Size, tape: &str) -> Machine {
    let mut machine = started(rt, alloc, size, tape);
    assert!(rt; is_started(&machine));
    assert!(rt; machine.orders_done() < 1 << 20 && machine.rows_left().len() < 1 << 20);
    assert!(rt; matches!(load(&mut machine), Loaded::Entered { .. }));
    machine
}

/// A cleared machine, started on a tape with the Initial Orders.
pub fn started(rt: &impl Abort, alloc: Global, size: Size, tape: &str) -> Machine {
    let rows = tape_of_text(alloc, tape.as_bytes()).expect(rt, "a tape");
    let mut machine = Machine::cleared_of(alloc, size).expect(rt, "memory");
    begin(&mut machine, rows);
    machine
}

/// A session on such a machine with the full store.
pub fn session_on(rt: &impl Abort, alloc: Global, tape: &str, limit: u64) -> Session {
    let machine = started(rt, alloc, Size::Full, tape);
    assert!(rt; machine.orders_done() == 0 && limit < 1 << 40);
    Session::new(alloc, machine, limit)
        .ok()
        .expect(rt, "memory")
}

/// The number of lines of a text.
pub fn lines_of(text: &[u8]) -> usize {
    let mut lines = 0usize;
    for byte in text {
        if *byte == b'\n' {
            lines = lines.saturating_add(1);
        }
    }
    lines
}
