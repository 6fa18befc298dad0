ghost use Rattle.std.specs.Prelude.{reverse};
ghost use Rattle.ed_programs.specs.Hello.{letters_refusal};
ghost use Rattle.ed_programs.specs.Mirror.{mirror_cost, mirror_orders, mirror_text};
ghost use Rattle.ed_programs.specs.Programs.{GivesProgram};
ghost use Rattle.ed_programs.specs.Tapes.{TapePrints};

use crate::letters::check_letters;
use crate::refusal::{Refusal, program_of_text};
use std::alloc::Global;

/// The tape before its last line, and the end of that line.
pub const MIRROR: [&str; 2] = [
    "[Reads a word from its own tape and prints it backwards.\n\
    \x20The rows after the entry are the program's own: first a digit, the number of letters, \
    and then the letters.\n\
    \x20Write your own in the last line. Look for: the order at 6, which stores a letter and walks up the store, \
    and\n\
    \x20the order at 20, which the program makes out of it and which walks down again.]\n\
    T64K GK\n\
    I28@            [0: how many letters come]\n\
    T29@            [1: clear the accumulator]\n\
    I30@            [2: the next row, as a number]\n\
    A30@ L512F LD   [3 to 5: to the upper end of the word, where O looks for it]\n\
    T40@            [6: store it]\n\
    A6@ A2F T6@     [7 to 9: the next letter goes one place on: location 2 holds 2, which is 1 in an address]\n\
    A28@ S27@ U28@  [10 to 12: one letter less]\n\
    S27@ E1@        [13, 14: again, if there is one]\n\
    T29@            [15: clear the accumulator]\n\
    A6@ A31@        [16, 17: make an order O of the order T]\n\
    S2F U20@        [18, 19: with the address one lower; plant it]\n\
    PF              [20: print a letter]\n\
    S32@ G26@       [21, 22: stop after the first one]\n\
    A32@ E18@       [23, 24: the order again, and one lower]\n\
    ZF              [25]\n\
    ZF              [26: stop]\n\
    PD              [27: 1]\n\
    PF              [28: how many letters]\n\
    PF              [29: the accumulator goes here to be cleared]\n\
    PF              [30: the row]\n\
    RF              [31: from T, function 5, to O, function 9]\n\
    O41@            [32: the order that prints the second letter]\n\
    EZPF\n",
    "\n",
];

/// The most letters whose number is one digit.
const MOST_LETTERS: usize = 9;

/// The tape that prints this word backwards: `examples/mirror.tape` with this instead of `CASDE`.
pub fn mirror_program(alloc: Global, letters: &str) -> Result<String, Refusal>
    ensures is { GivesProgram (letters_refusal 9 letters.now) (mirror_text letters.now) result }
    ensures law { TapePrints mirror_cost (mirror_orders letters.now) 91 (reverse letters.now) result }
{
    check_letters(letters, MOST_LETTERS)?;
    let count = letters.len();
    let [tape, end] = MIRROR;
    program_of_text(format!(in alloc; "{tape}{count}{letters}{end}"))
}
