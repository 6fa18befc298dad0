//! The teleprinter's text of codes that were printed.

ghost use Rattle.std.specs.Prelude.{◌≡◌, IfOk, reverse};
ghost use Rattle.ed_printer.specs.Paper.{latest_shift};
ghost use Rattle.ed_page.specs.Going.{AreCodes, IsPaperWritten, PaperLaw, added_text};

use crate::reply::{NO_MEMORY, NO_ROOM};
use crate::snapshot::codes_of;
use crate::writing::write_text;
use ed_codes::Code;
use ed_codes::letters::{FIGURE_SHIFT, LETTER_SHIFT};
use ed_printer::Printer;
use ed_words::NoMemory;
use std::alloc::Global;

/// The answer if a text was written.
const WRITTEN: u32 = 0;

/// Writes the text that codes add to the paper after the codes `before` them, and its length, and answers 0. It answers
/// 12 if the buffer has no room, and 10 if no memory was found; nothing is written then.
#[unsafe(no_mangle)]
pub extern "C" fn page_paper(
    alloc: Global,
    before: &[u8],
    codes: &[u8],
    text: &mut [u8],
    printed: &mut u64,
) -> u32
    requires before { AreCodes before.now }
    requires codes { AreCodes codes.now }
    ensures text { IsPaperWritten before.now codes.now text.old text.new printed.old printed.new result }
    ensures law { PaperLaw }
{
    match added_text(alloc, before, codes) {
        Ok(added) if text.len() < added.len() => NO_ROOM,
        Ok(added) => {
            write_text(&added, text);
            *printed = added.len() as u64;
            WRITTEN
        }
        Err(NoMemory) => NO_MEMORY,
    }
}

/// The text that codes add to the paper after others.
fn added_text(alloc: Global, before: &[u8], codes: &[u8]) -> Result<Vec<u8>, NoMemory>
    requires before { AreCodes before.now }
    requires codes { AreCodes codes.now }
    ensures { IfOk result (λ text. text.items ≡ added_text before.now codes.now) }
{
    let mut printer = printer_after(before);
    let codes = codes_of(alloc, codes)?;
    Ok(printer.text_of(alloc, &codes)?)
}

/// A printer in the shift that codes leave: that of the last one that sets a shift.
fn printer_after(codes: &[u8]) -> Printer
    ensures { result ≡ latest_shift (reverse codes.now) }
{
    let mut rest = codes;
    while let Some((code, before)) = rest.split_last() {
        if *code == FIGURE_SHIFT || *code == LETTER_SHIFT {
            let mut printer = Printer::new();
            printer.strike(Code::new(*code).unwrap_or_default());
            return printer;
        }
        rest = before;
    }
    Printer::new()
}
