ghost use Rattle.std.specs.Prelude.{◌≡◌, IfOk, string_bytes};
ghost use Rattle.ed_sources.specs.CallSources.{call_text};
ghost use Rattle.ed_sources.specs.CallRuns.{RunsAsCall};

use crate::filling::filled;
use ed_library::Call;
use ed_words::NoMemory;
use std::alloc::Global;

/// `call print N`: the number is a word, and `print` prints it. There is a gap for the number, and so in those below.
pub const PRINT: [&str; 2] = [
    "segment main\n\
    here: A here F\n\
    G p F\n\
    Z F\n\
    value: word ",
    "\nuse print as p with H=value\n\
    enter main\n",
];

/// `call read N`: the number is on the tape after the program, with the F that ends it. `read` reads it, and `print`
/// prints it.
pub const READ: [&str; 2] = [
    "segment main\n\
    here: A here F\n\
    G r F\n\
    then: A then F\n\
    G p F\n\
    Z F\n\
    value: P F\n\
    use read as r with H=value\n\
    use print as p with H=value\n\
    enter main\n\
    data \"",
    "F\"\n",
];

/// `call newline`.
pub const NEW_LINE: [&str; 1] = [
    "segment main\n\
    here: A here F\n\
    G n F\n\
    Z F\n\
    use newline as n\n\
    enter main\n",
];

/// `call divide N D`, with the two halves of N and with D: `divide` leaves the quotient at `lo`, which is printed, and
/// the remainder at `hi`, which is printed on a line of its own.
pub const DIVIDE: [&str; 4] = [
    "segment main\n\
    here: A here F\n\
    G v F\n\
    then: A then F\n\
    G p F\n\
    next: A next F\n\
    G n F\n\
    last: A last F\n\
    G r F\n\
    Z F\n\
    hi: word ",
    "\nlo: word ",
    "\nby: word ",
    "\nuse divide as v with H=hi, N=lo, M=by\n\
    use print as p with H=lo\n\
    use newline as n\n\
    use print as r with H=hi\n\
    enter main\n",
];

/// `call root N`: `root` leaves the root at `is`, which is printed.
pub const ROOT: [&str; 2] = [
    "segment main\n\
    here: A here F\n\
    G v F\n\
    then: A then F\n\
    G p F\n\
    Z F\n\
    of: word ",
    "\nis: P F\n\
    use root as v with H=of, N=is\n\
    use print as p with H=is\n\
    enter main\n",
];

/// `call check N`: the checking routine obeys a guest that prints the number, and prints the function of each order of
/// the guest.
pub const CHECK: [&str; 2] = [
    "segment main\n\
    here: A here F\n\
    G p F\n\
    Z F\n\
    value: word ",
    "\nuse print as p with H=value\n\
    use check as c with H=main\n\
    enter c\n",
];

/// The source of a call of a library routine.
pub fn call_source(alloc: Global, call: &Call) -> Result<Vec<u8>, NoMemory>
    ensures is { IfOk result (λ bytes. bytes.items ≡ call_text call.now) }
    ensures runs { IfOk result (λ bytes. RunsAsCall call.now bytes.items) }
{
    Ok(source_text(alloc, call)?.into_bytes())
}

/// The text of that source.
fn source_text(alloc: Global, call: &Call) -> Result<String, NoMemory>
    ensures { IfOk result (λ text. string_bytes text ≡ call_text call.now) }
{
    match call {
        Call::Print(number) => filled(alloc, &PRINT, &[*number]),
        Call::Read(number) => filled(alloc, &READ, &[*number]),
        Call::NewLine => filled(alloc, &NEW_LINE, &[]),
        Call::Divide { n, by } => {
            let high = (n / 65536) as u16;
            let low = (n % 65536) as u16;
            filled(alloc, &DIVIDE, &[high, low, *by])
        }
        Call::Root(number) => filled(alloc, &ROOT, &[*number]),
        Call::Check(number) => filled(alloc, &CHECK, &[*number]),
    }
}
