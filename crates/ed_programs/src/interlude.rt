ghost use Rattle.ed_programs.specs.Interlude.{InterludePrints, interlude_refusal, interlude_text};
ghost use Rattle.ed_programs.specs.Programs.{GivesProgram};

use crate::filled::filled_program;
use crate::refusal::Refusal;
use std::alloc::Global;

/// The least number: its double is the first location after the program.
const LEAST: u16 = 34;

/// The greatest number: the three words from its double upwards must be within the store.
const MOST: u16 = 510;

/// The tape before the number and after it.
pub const INTERLUDE: [&str; 2] = [
    "[A tape that works out where its own words go. The first part is an interlude: it doubles a number, and\n\
    leaves the double at 45, where the letter H refers to it. It also makes an order T with the double as its\n\
    address, and returns with that order to the Initial Orders, which read on and put the next words there.\n\
    Look for: the order T at 105, an order that is never obeyed: the loader uses it as its directive.]\n\
    T100K GK\n\
    A6@ A6@     [100: twice the number]\n\
    U45F        [102: for the letter H]\n\
    A5@ E25F    [103: make an order T of it, and go back to the Initial Orders]\n\
    TF          [105: the order T, with no address yet]\n\
    P",
    "F        [106: the number]\n\
    E100K PF    [enter it]\n\
    [The interlude has returned. H is twice the number, and so is the location of the next word.]\n\
    *F HF IF    [letter shift, H, I]\n\
    T64K\n\
    OH O1H O2H  [64: print the words at H, H + 1 and H + 2]\n\
    ZF          [67: stop]\n\
    E64K PF\n",
];

/// The tape whose interlude doubles this number: `examples/interlude.tape` with this instead of 34.
pub fn interlude_program(alloc: Global, number: u16) -> Result<String, Refusal>
    ensures is { GivesProgram (interlude_refusal number) (interlude_text number) result }
    ensures law { InterludePrints number result }
{
    if number < LEAST || MOST < number {
        return Err(Refusal::Place);
    }
    filled_program(alloc, &INTERLUDE, &[number])
}
