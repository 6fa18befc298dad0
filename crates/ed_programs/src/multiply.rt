ghost use Rattle.std.specs.Prelude.{◌≡◌, ◌*◌};
ghost use Rattle.ed_programs.specs.Multiply.{multiply_orders, multiply_prints, multiply_refusal, multiply_text};
ghost use Rattle.ed_programs.specs.Programs.{GivesProgram, Prints};

use crate::filled::filled_program;
use crate::refusal::{LIMIT, Refusal};
use std::alloc::Global;

/// The source, with a gap for the root, the left and the right number.
pub const MULTIPLY: [&str; 4] = [
    "version 2\n\
    ; The fifth lesson's answer: a subroutine that multiplies by adding, called for 7 times 8 and for 12 times 12.\n\
    ; Look for: a routine that calls two others, and keeps its own link meanwhile.\n\
    segment main\n\
    _seven: A _seven F\n\
    G times F\n\
    _one: A _one F\n\
    G show F\n\
    A _twelve F\n\
    U left F\n\
    T right F\n\
    _again: A _again F\n\
    G times F\n\
    _two: A _two F\n\
    G show F\n\
    Z F\n\
    _twelve: word ",
    "\n\
    segment times\n\
    A 3 F\n\
    T _link F\n\
    T product F           ; 0 at first\n\
    _next: T _scrap F\n\
    A left F\n\
    S _unit F\n\
    G _end F              ; added often enough\n\
    T left F\n\
    A product F\n\
    A right F\n\
    T product F\n\
    E _next F\n\
    _end: T _scrap F\n\
    _link: P F\n\
    left: word ",
    "\n\
    right: word ",
    "\n\
    product: P F\n\
    _unit: word 1\n\
    _scrap: P F\n\
    segment show\n\
    A 3 F                 ; a routine that calls two others: it has a link, and so have they\n\
    T _link F\n\
    _print: A _print F\n\
    G p F\n\
    _line: A _line F\n\
    G n F\n\
    _link: P F\n\
    use print as p with H=product\n\
    use newline as n\n\
    enter main\n",
];

/// The source that prints the product of two numbers and the square of a third: `examples/answer5.edsac` with these
/// instead of 7, 8 and 12.
pub fn multiply_program(alloc: Global, left: u16, right: u16, root: u16) -> Result<String, Refusal>
    ensures is { GivesProgram (multiply_refusal left right root) (multiply_text left right root) result }
    ensures law { Prints (multiply_orders left right root) 68 (multiply_prints left right root) result }
{
    if LIMIT <= product_of(left, right) || LIMIT <= product_of(root, root) {
        return Err(Refusal::Number);
    }
    filled_program(alloc, &MULTIPLY, &[root, left, right])
}

/// The product of two numbers.
fn product_of(left: u16, right: u16) -> u32
    ensures { result ≡ left * right }
{
    left as u32 * right as u32
}
