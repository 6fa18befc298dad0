ghost use Rattle.std.specs.Prelude.{◌≡◌, ◌+◌, ◌^◌, ◌≤◌, length};
ghost use Rattle.ed_postmortem.specs.Answers.{AnswersPrinting, InRange, IsPrinted, PaperIsEnough};
ghost use Rattle.ed_postmortem.specs.Answers.{enough_orders, needed_of, room_of};
ghost use Rattle.ed_postmortem.specs.Codes.{AddressDigitsLaw, printed_codes, word_codes};
ghost use Rattle.ed_postmortem.specs.Tape.{tape_rows};

use crate::PmFault;
use crate::tape::tape;
use ed_codes::Code;
use ed_initial::{begin, load};
use ed_machine::{Machine, Paper};
use ed_run::run;
use ed_words::Word;
use std::alloc::Global;

/// The first location that can be printed: the post-mortem's own words are below it.
const FIRST: u16 = 144;

/// More orders than a post-mortem obeys after its entry.
const ENOUGH: u64 = 250_000;

/// Prints the words at `count` locations from `first` upwards: starts the machine, without Clear, on the tape of the
/// post-mortem, loads it by the Initial Orders and runs it to its stop. The answer is the number of orders obeyed.
///
/// A word is a line of the paper: `O66F` for an even one, `2047D` for an odd one; the first letter is the function.
/// The refusals come in the order of `PmFault`, and change nothing.
pub fn post_mortem(
    alloc: Global,
    machine: &mut Machine,
    first: u16,
    count: u16,
    paper: &mut Paper,
) -> Result<u64, PmFault>
    requires { machine.old.orders + enough_orders ≤ 2 ^ 63 }
    ensures answers { AnswersPrinting machine.old paper.old first count result machine.new paper.new }
    ensures law { PaperIsEnough }
    ensures digits { AddressDigitsLaw }
{
    if first < FIRST {
        return Err(PmFault::InItsOwnStore);
    }
    if u32::from(machine.size().value()) < u32::from(first) + u32::from(count) {
        return Err(PmFault::StoreEnd);
    }
    let needed = codes_needed(machine, first, count);
    let room = paper.room_left();
    if room < needed {
        return Err(PmFault::PaperFull { needed, room });
    }
    let rows = tape(alloc, first, count)?;
    Ok(obey(machine, first, count, rows, paper))
}

/// Starts the machine on the tape and obeys it to its stop.
fn obey(machine: &mut Machine, first: u16, count: u16, rows: Vec<Code>, paper: &mut Paper) -> u64
    requires orders { machine.old.orders + enough_orders ≤ 2 ^ 63 }
    requires range { InRange machine.old first count }
    requires room { needed_of machine.old first count ≤ room_of paper.old }
    requires rows { rows.items ≡ tape_rows first count }
    ensures { IsPrinted machine.old paper.old first count result machine.new paper.new }
{
    // Called only for its clause `store`: the proof needs that the store has all its words within their bounds.
    let _ = machine.word(0);
    let before = machine.orders_done();
    begin(machine, rows);
    load(machine);
    run(machine, ENOUGH, 0, paper);
    machine.orders_done() - before
}

/// The number of codes that print the words at `count` locations from `first` upwards.
fn codes_needed(machine: &Machine, first: u16, count: u16) -> usize
    requires { first + count ≤ 1024 }
    ensures { result ≡ length (printed_codes machine.now.store.words first count) }
{
    let mut needed = 0;
    for done in 0..count {
        needed += codes_of_word(machine.word(first + done));
    }
    needed
}

/// The number of codes that print a word.
fn codes_of_word(word: Word) -> usize
    ensures is { result ≡ length (word_codes word) }
    ensures most { result ≤ 11 }
{
    let number = word.value() % 4096 / 2;
    if number < 10 {
        8
    } else if number < 100 {
        9
    } else if number < 1000 {
        10
    } else {
        11
    }
}
