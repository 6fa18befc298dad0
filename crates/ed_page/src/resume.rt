//! Continuing from a picture that a call wrote.

ghost use Rattle.std.specs.Prelude.{◌≡◌, ℕ, ◌+◌, ◌^◌, ◌≤◌, IfOk, length};
ghost use Rattle.ed_machine.specs.State.{State};
ghost use Rattle.ed_machine.specs.Steps.{state_after};
ghost use Rattle.ed_run.specs.Run.{RunEnd, run_end};
ghost use Rattle.ed_tapes.specs.Replies.{IsRunResult};
ghost use Rattle.ed_page.specs.Going.{CanGoOn, GoingLaw, IsAfterStart, IsRunResumed, IsOnTheWay, ShowsRun, going_buffers};
ghost use Rattle.ed_page.specs.Pictures.{Pictures};

use crate::reply::{NO_MEMORY, NO_ROOM};
use crate::snapshot::snapshot;
use crate::writing::{Lengths, Registers, registers_of, write_codes, write_store};
use ed_machine::Paper;
use ed_run::run;
use ed_tapes::{FinishedRun, status_of};
use ed_words::NoMemory;
use std::alloc::Global;

/// Continues from a picture: obeys `orders` more orders, or fewer if the run ends first. Each of the first
/// `resumes` Z orders lets the run continue.
///
/// The words, digits and registers are those that this call, `page_tape`, `page_tape1` or `page_source` wrote for the
/// tape that has these rows; after `page_tape1` the store is not small. Afterwards they are those of the state in which
/// the run ends; `registers.orders` is still counted from Start. The room of `codes` is the paper that is left: the new
/// codes are written at its beginning, and `registers.printed` is their number. The answer is the status of the ending:
/// 0, 4, 5, 6 or 7; 12 if a buffer of the store has the wrong length, and 10 if no memory was found. With 10 and 12
/// nothing is written.
#[unsafe(no_mangle)]
pub extern "C" fn page_go_on(
    alloc: Global,
    rows: &[u8],
    small: bool,
    orders: u32,
    resumes: u32,
    words: &mut [u32],
    digits: &mut [u8],
    codes: &mut [u8],
    registers: &mut Registers,
) -> u32
    requires picture { CanGoOn small rows.now words.old digits.old registers.old }
    requires count { registers.old.orders + orders ≤ 2 ^ 63 }
    ensures gone { (first : State) → IsAfterStart small rows.now first → (k : ℕ)
        → Pictures (state_after k first) words.old digits.old registers.old
        → IsRunResumed (run_end orders resumes (length codes.old) (state_after k first))
        (going_buffers words.old digits.old codes.old registers.old)
        (going_buffers words.new digits.new codes.new registers.new) result }
    ensures next { (first : State) → IsAfterStart small rows.now first
        → IsOnTheWay first rows.now words.old digits.old registers.old
        → IsOnTheWay first rows.now words.new digits.new registers.new }
    ensures law { GoingLaw }
{
    if words.len() != 1024 || digits.len() != 512 {
        return NO_ROOM;
    }
    match resume(
        alloc,
        rows,
        small,
        orders,
        resumes,
        words,
        digits,
        codes.len(),
        registers,
    ) {
        Ok(gone) => show(&gone, words, digits, codes, registers),
        Err(NoMemory) => NO_MEMORY,
    }
}

/// The end of the run from a picture, on a paper with this room.
fn resume(
    alloc: Global,
    rows: &[u8],
    small: bool,
    orders: u32,
    resumes: u32,
    words: &[u32],
    digits: &[u8],
    room: usize,
    registers: &Registers,
) -> Result<FinishedRun, NoMemory>
    requires words { length words.now ≡ 1024 }
    requires digits { length digits.now ≡ 512 }
    requires picture { CanGoOn small rows.now words.now digits.now registers.now }
    requires count { registers.now.orders + orders ≤ 2 ^ 63 }
    ensures gone { IfOk result (λ gone. (first : State) → IsAfterStart small rows.now first → (k : ℕ)
        → Pictures (state_after k first) words.now digits.now registers.now
        → IsRunResult (run_end orders resumes room (state_after k first)) gone) }
    ensures fits { IfOk result (λ gone. gone.paper.room ≡ room) }
{
    let mut paper = Paper::new(alloc, room)?;
    let mut machine = snapshot(alloc, small, rows, words, digits, registers)?;
    let ending = run(&mut machine, u64::from(orders), resumes, &mut paper);
    Ok(FinishedRun {
        ending,
        machine,
        paper,
    })
}

/// Writes where a run ended, with the codes that it printed.
fn show(
    gone: &FinishedRun,
    words: &mut [u32],
    digits: &mut [u8],
    codes: &mut [u8],
    registers: &mut Registers,
) -> u32
    requires words { length words.old ≡ 1024 }
    requires digits { length digits.old ≡ 512 }
    requires codes { gone.now.paper.room ≤ length codes.old }
    ensures { (r : RunEnd) → IsRunResult r gone.now → ShowsRun r
        (going_buffers words.old digits.old codes.old registers.old)
        (going_buffers words.new digits.new codes.new registers.new) result }
{
    let printed = gone.paper.codes();
    write_codes(printed, codes);
    write_store(&gone.machine, words, digits);
    let lengths = Lengths {
        out: printed.len() as u64,
        note: 0,
    };
    *registers = registers_of(&gone.machine, lengths);
    u32::from(status_of(gone.ending))
}
