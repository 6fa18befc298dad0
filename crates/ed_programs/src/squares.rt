ghost use Rattle.std.specs.Prelude.{None};
ghost use Rattle.ed_programs.specs.FirstTapes.{FirstTapePrints};
ghost use Rattle.ed_programs.specs.Programs.{GivesProgram};
ghost use Rattle.ed_programs.specs.Squares.{squares_cost, squares_orders, squares_prints, squares_text};

use crate::filled::filled_program;
use crate::refusal::Refusal;
use std::alloc::Global;

/// The tape.
pub const SQUARES: [&str; 1] = [
    "[Prints the squares from 1 to 81, each from the one before: the next odd number is added. For the\n\
    \x20orders of May 1949, whose tapes begin with T and the location after the last word.]\n\
    T74S    [31: the first word: where the tape ends]\n\
    O61S    [32: figure shift]\n\
    T62S    [33: clear the accumulator]\n\
    A63S    [34]\n\
    A64S    [35]\n\
    T63S    [36: the next square is the last one and the next odd number]\n\
    A64S    [37]\n\
    A65S    [38]\n\
    T64S    [39: the odd number after that]\n\
    T69S    [40: no tens yet]\n\
    A63S    [41]\n\
    S66S    [42]\n\
    G50S    [43: less than ten is left]\n\
    T70S    [44]\n\
    A69S    [45]\n\
    A68S    [46]\n\
    T69S    [47: one more ten]\n\
    A70S    [48]\n\
    E42S    [49: and again]\n\
    A66S    [50: what is left are the units]\n\
    L512S   [51: to the head of the word]\n\
    T71S    [52]\n\
    O69S    [53]\n\
    O71S    [54]\n\
    O72S    [55]\n\
    O73S    [56]\n\
    A63S    [57]\n\
    S67S    [58]\n\
    G33S    [59: again up to 81]\n\
    ZS      [60: stop]\n\
    #S      [61: the code of figure shift]\n\
    PS      [62: the accumulator goes here to be cleared]\n\
    PS      [63: the square]\n\
    P1S     [64: the odd number, 1 at first]\n\
    P2S     [65: 2]\n\
    P10S    [66: 10]\n\
    P81S    [67: 81]\n\
    QS      [68: one, as a code to print]\n\
    PS      [69: the tens, as a code to print]\n\
    PS      [70: what is left of the square]\n\
    PS      [71: the units, as a code to print]\n\
    @S      [72: the code of carriage return]\n\
    &S      [73: the code of line feed]\n",
];

/// The tape that prints the squares from 1 to 81: `examples/squares.tape1`. The only refusal is `Memory`.
pub fn squares_program(alloc: Global) -> Result<String, Refusal>
    ensures is { GivesProgram None squares_text result }
    ensures law { FirstTapePrints squares_cost squares_orders 61 squares_prints result }
{
    filled_program(alloc, &SQUARES, &[])
}
