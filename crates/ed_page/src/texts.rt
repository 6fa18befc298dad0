ghost use Rattle.std.specs.Prelude.{IfOk};
ghost use Rattle.ed_tapes.specs.Answer.{exactly, of_rows};
ghost use Rattle.ed_tapes.specs.Outcome.{done};
ghost use Rattle.ed_tapes.specs.Replies.{Gives};
ghost use Rattle.ed_headline.specs.Sources.{listing_answer, of_source, punch_answer};
ghost use Rattle.ed_page.specs.Answers.{IsTextWritten, source_rows, text_buffers};
ghost use Rattle.ed_page.specs.Pictures.{run_settings, size_shown};

use crate::request::{Request, RowsRequest, write_answer};
use crate::running::{run_settings, size_of};
use crate::writing::Lengths;
use ed_codes::Code;
use ed_tapes::Reply;
use ed_words::NoMemory;
use std::alloc::Global;

/// Writes the codes of the rows of a tape's text, and answers 0; or writes the program's note, and answers 3 if the
/// text is refused and 11 if it is too long. It answers 10 if no memory was found, and 12, with nothing written, if a
/// buffer has no room; 12 comes before 10 if the text is too long and the line that says so has no room.
#[unsafe(no_mangle)]
pub extern "C" fn page_tape_rows(
    alloc: Global,
    text: &[u8],
    rows: &mut [u8],
    note: &mut [u8],
    lengths: &mut Lengths,
) -> u32
    ensures { IsTextWritten (of_rows (exactly done)) text.now (text_buffers rows.old note.old lengths.old)
        (text_buffers rows.new note.new lengths.new) result }
{
    let request = Request::Tape(RowsRequest::Codes);
    write_answer(alloc, request, text, rows, note, lengths)
}

/// Writes the codes of the rows of a source's tape, as `page_tape_rows` does.
#[unsafe(no_mangle)]
pub extern "C" fn page_source_rows(
    alloc: Global,
    text: &[u8],
    small: bool,
    rows: &mut [u8],
    note: &mut [u8],
    lengths: &mut Lengths,
) -> u32
    ensures { IsTextWritten (of_source (size_shown small) source_rows) text.now
        (text_buffers rows.old note.old lengths.old)
        (text_buffers rows.new note.new lengths.new) result }
{
    let request = Request::SourceRows(size_of(small));
    write_answer(alloc, request, text, rows, note, lengths)
}

/// Writes the text of a source's tape as `edsac punch` does, as `page_tape_rows` writes rows.
#[unsafe(no_mangle)]
pub extern "C" fn page_punch(
    alloc: Global,
    text: &[u8],
    small: bool,
    tape: &mut [u8],
    note: &mut [u8],
    lengths: &mut Lengths,
) -> u32
    ensures { IsTextWritten (punch_answer (run_settings small 0 0)) text.now (text_buffers tape.old note.old lengths.old)
        (text_buffers tape.new note.new lengths.new) result }
{
    let request = Request::Punch(run_settings(small, 0, 0));
    write_answer(alloc, request, text, tape, note, lengths)
}

/// Writes the listing of a source, as `page_tape_rows` writes rows.
#[unsafe(no_mangle)]
pub extern "C" fn page_listing(
    alloc: Global,
    text: &[u8],
    small: bool,
    listing: &mut [u8],
    note: &mut [u8],
    lengths: &mut Lengths,
) -> u32
    ensures { IsTextWritten (listing_answer (run_settings small 0 0)) text.now (text_buffers listing.old note.old lengths.old)
        (text_buffers listing.new note.new lengths.new) result }
{
    let request = Request::Listing(run_settings(small, 0, 0));
    write_answer(alloc, request, text, listing, note, lengths)
}

/// The reply that has the codes of rows as bytes.
pub fn row_codes(alloc: Global, rows: &[Code]) -> Result<Reply, NoMemory>
    ensures { IfOk result (λ reply. Gives reply (done rows.now)) }
{
    let mut bytes = Vec::new(alloc);
    for row in rows {
        bytes.push(row.value())?;
    }
    Ok(Reply::done(alloc, bytes))
}
