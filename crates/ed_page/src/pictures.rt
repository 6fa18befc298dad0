ghost use Rattle.std.specs.Prelude.{◌≡◌, ◌≢◌, ◌<◌, List, None, false, length, ℕ};
ghost use Rattle.ed_codes.specs.Reading.{reading, rows};
ghost use Rattle.ed_initial.specs.Entry.{first_state};
ghost use Rattle.ed_lines.specs.declared.program.Line.{Line};
ghost use Rattle.ed_headline.specs.Refusals.{IsAcceptedAs};
ghost use Rattle.ed_link.specs.Tapes.{tape};
ghost use Rattle.ed_tapes.specs.Answer.{of_input};
ghost use Rattle.ed_tapes.specs.FirstOrders.{first_state1, run1_of, tape1_answer};
ghost use Rattle.ed_tapes.specs.Runs.{run_of};
ghost use Rattle.ed_headline.specs.Sources.{run_answer};
ghost use Rattle.ed_tapes.specs.Tapes.{tape_answer};
ghost use Rattle.ed_page.specs.Answers.{EachRunReadsOn, IsShown, RowsEnd, SourceEnds};
ghost use Rattle.ed_page.specs.Answers.{picture_buffers};
ghost use Rattle.ed_page.specs.Going.{BeginsOnTheWay};
ghost use Rattle.ed_page.specs.Pictures.{run_settings, size_shown};
ghost use Rattle.ed_page.specs.Private.Requests.{answers_of, ends_of};
ghost use Rattle.ed_page.specs.Private.Stages.{WritesBuffers, told_outcome};

use crate::reply::{NO_MEMORY, NO_ROOM, TOO_LONG_STATUS, write_texts};
use crate::running::{InitialOrders, ProgramKind, picture_of, run_settings};
use crate::writing::{NO_CODE, Registers, registers_of, write_store};
use ed_machine::Machine;
use ed_run::Settings;
use ed_tapes::{INPUT_BYTES, TOO_LONG};
use ed_words::NoMemory;
use std::alloc::Global;

/// Shows the machine after `orders` orders from Start on a tape's text, or at the end of its run if that comes first.
/// Each of the first `resumes` Z orders lets the run continue.
///
/// It writes 1,024 words, 512 sandwich digits, the teleprinter's text, the program's note and the registers, and
/// answers the program's status: 0, 4, 5, 6 or 7 by the ending of the run, 3 if the text is refused, 11 if it is too
/// long and 10 if no memory was found. With 10 nothing is written; with 3 and 11 no word and no digit is, and the
/// registers show no code and are 0 except for the lengths of the texts. It answers 12, and writes nothing, if a buffer
/// has the wrong length: 1,024 and 512, and for each text as many bytes as it has. The lengths of the store's buffers,
/// and the room for the line on a text that is too long, are tested before any memory is taken.
#[unsafe(no_mangle)]
pub extern "C" fn page_tape(
    alloc: Global,
    text: &[u8],
    small: bool,
    orders: u32,
    resumes: u32,
    words: &mut [u32],
    digits: &mut [u8],
    paper: &mut [u8],
    note: &mut [u8],
    registers: &mut Registers,
) -> u32
    ensures shown { let s = run_settings small orders resumes in IsShown (tape_answer s) (RowsEnd (run_of s)) text.now
        (picture_buffers words.old digits.old paper.old note.old registers.old)
        (picture_buffers words.new digits.new paper.new note.new registers.new) result }
    ensures rows { EachRunReadsOn run_of }
    ensures next { (codes : List ℕ) → reading text.now ≡ rows codes
        → BeginsOnTheWay (first_state (size_shown small) codes) codes text.now words.new digits.new registers.new result }
{
    let settings = run_settings(small, orders, resumes);
    draw(
        alloc,
        ProgramKind::Tape(InitialOrders::Orders41),
        settings,
        text,
        words,
        digits,
        paper,
        note,
        registers,
    )
}

/// Shows the machine of full store after `orders` orders from Start on a tape's text with the Initial Orders of May
/// 1949, as `page_tape` does with the others.
#[unsafe(no_mangle)]
pub extern "C" fn page_tape1(
    alloc: Global,
    text: &[u8],
    orders: u32,
    resumes: u32,
    words: &mut [u32],
    digits: &mut [u8],
    paper: &mut [u8],
    note: &mut [u8],
    registers: &mut Registers,
) -> u32
    ensures shown { let s = run_settings false orders resumes in IsShown (tape1_answer s) (RowsEnd (run1_of s)) text.now
        (picture_buffers words.old digits.old paper.old note.old registers.old)
        (picture_buffers words.new digits.new paper.new note.new registers.new) result }
    ensures rows { EachRunReadsOn run1_of }
    ensures next { (codes : List ℕ) → reading text.now ≡ rows codes
        → BeginsOnTheWay (first_state1 codes) codes text.now words.new digits.new registers.new result }
{
    let settings = run_settings(false, orders, resumes);
    draw(
        alloc,
        ProgramKind::Tape(InitialOrders::Orders31),
        settings,
        text,
        words,
        digits,
        paper,
        note,
        registers,
    )
}

/// Shows the machine after `orders` orders from Start on the tape of a source, as `page_tape` does; a source with a
/// fault is refused.
#[unsafe(no_mangle)]
pub extern "C" fn page_source(
    alloc: Global,
    text: &[u8],
    small: bool,
    orders: u32,
    resumes: u32,
    words: &mut [u32],
    digits: &mut [u8],
    paper: &mut [u8],
    note: &mut [u8],
    registers: &mut Registers,
) -> u32
    ensures shown { let s = run_settings small orders resumes in IsShown (run_answer s) (SourceEnds s) text.now
        (picture_buffers words.old digits.old paper.old note.old registers.old)
        (picture_buffers words.new digits.new paper.new note.new registers.new) result }
    ensures rows { EachRunReadsOn run_of }
    ensures next { (lines : List Line) → IsAcceptedAs (size_shown small) text.now lines
        → BeginsOnTheWay (first_state (size_shown small) (tape lines)) (tape lines) text.now
        words.new digits.new registers.new result }
{
    let settings = run_settings(small, orders, resumes);
    draw(
        alloc,
        ProgramKind::Source,
        settings,
        text,
        words,
        digits,
        paper,
        note,
        registers,
    )
}

/// Writes what is shown of the run of a program, if the buffers have room.
fn draw(
    alloc: Global,
    kind: ProgramKind,
    settings: Settings,
    text: &[u8],
    words: &mut [u32],
    digits: &mut [u8],
    paper: &mut [u8],
    note: &mut [u8],
    registers: &mut Registers,
) -> u32
    requires { settings.post_mortem ≡ None }
    ensures { IsShown (of_input (answers_of kind settings)) (ends_of kind settings) text.now
        (picture_buffers words.old digits.old paper.old note.old registers.old)
        (picture_buffers words.new digits.new paper.new note.new registers.new) result }
{
    if words.len() != 1024 || digits.len() != 512 {
        return NO_ROOM;
    }
    if text.len() > INPUT_BYTES {
        return show(
            &[],
            TOO_LONG,
            TOO_LONG_STATUS,
            &None,
            words,
            digits,
            paper,
            note,
            registers,
        );
    }
    match picture_of(alloc, kind, settings, text) {
        Ok(shown) => show(
            &shown.reply.out,
            &shown.reply.note,
            shown.reply.status,
            &shown.machine,
            words,
            digits,
            paper,
            note,
            registers,
        ),
        Err(NoMemory) => NO_MEMORY,
    }
}

/// Writes the two texts of an answer, and a machine if there is one, into buffers, if the texts have room.
fn show(
    answer: &[u8],
    line: &[u8],
    status: u8,
    machine: &Option<Machine>,
    words: &mut [u32],
    digits: &mut [u8],
    paper: &mut [u8],
    note: &mut [u8],
    registers: &mut Registers,
) -> u32
    requires words { length words.old ≡ 1024 }
    requires digits { length digits.old ≡ 512 }
    requires low { status < 12 }
    requires found { status ≢ 10 }
    ensures { WritesBuffers (told_outcome answer.now line.now status) machine.now
        (picture_buffers words.old digits.old paper.old note.old registers.old)
        (picture_buffers words.new digits.new paper.new note.new registers.new) result }
{
    let Some(lengths) = write_texts(answer, line, paper, note) else {
        return NO_ROOM;
    };
    *registers = match machine {
        Some(machine) => {
            write_store(machine, words, digits);
            registers_of(machine, lengths)
        }
        None => Registers {
            acc_low: 0,
            acc_high: 0,
            multiplier: 0,
            orders: 0,
            rows_left: 0,
            counter: 0,
            last: NO_CODE,
            printed: lengths.out,
            noted: lengths.note,
        },
    };
    u32::from(status)
}
