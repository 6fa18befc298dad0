//! What the page asks about a text, and the answers to it.

ghost use Rattle.std.specs.Prelude.{◌≤◌, length};
ghost use Rattle.ed_tapes.specs.Answer.{of_input};
ghost use Rattle.ed_tapes.specs.declared.input.TheConstants.{INPUT_BYTES};
ghost use Rattle.ed_page.specs.Answers.{IsTextWritten, text_buffers};
ghost use Rattle.ed_page.specs.Private.Requests.{answers_to, answers_to_rows};
ghost use Rattle.ed_page.specs.Private.Stages.{IsAnswered};

use crate::first_items::row_items1;
use crate::items::row_items;
use crate::reply::{NO_MEMORY, TOO_LONG_STATUS, write_reply};
use crate::texts::row_codes;
use crate::writing::Lengths;
use ed_answers::{linked_of, list, punch};
use ed_codes::Code;
use ed_run::Settings;
use ed_tapes::{INPUT_BYTES, Rejection, Reply, TOO_LONG, rows_of};
use ed_words::Size;
use std::alloc::Global;

/// What is asked about a text.
#[derive(Drop)]
pub enum Request {
    /// Something about the rows of a tape.
    Tape(RowsRequest),
    /// The codes of the rows of a source's tape.
    SourceRows(Size),
    /// The text of a source's tape.
    Punch(Settings),
    /// The listing of a source.
    Listing(Settings),
}

/// What is asked about the rows of a tape.
#[derive(Drop)]
pub enum RowsRequest {
    /// Their codes.
    Codes,
    /// Their items on a machine of a size.
    Items(Size),
    /// Their items for the Initial Orders of May 1949.
    Items1,
}

/// Writes what is answered to a text into two buffers, if they have room.
pub fn write_answer(
    alloc: Global,
    request: Request,
    text: &[u8],
    out: &mut [u8],
    note: &mut [u8],
    lengths: &mut Lengths,
) -> u32
    ensures { IsTextWritten (of_input (answers_to request)) text.now (text_buffers out.old note.old lengths.old)
        (text_buffers out.new note.new lengths.new) result }
{
    if text.len() > INPUT_BYTES {
        return write_reply(&[], TOO_LONG, TOO_LONG_STATUS, out, note, lengths);
    }
    let reply = match answer(alloc, request, text) {
        Ok(reply) => reply,
        Err(Rejection::Refused(reply)) => reply,
        Err(Rejection::Memory) => return NO_MEMORY,
    };
    write_reply(&reply.out, &reply.note, reply.status, out, note, lengths)
}

/// What is answered to a text that is not too long.
fn answer(alloc: Global, request: Request, text: &[u8]) -> Result<Reply, Rejection>
    requires { length text.now ≤ INPUT_BYTES }
    ensures { IsAnswered (answers_to request) text.now result }
{
    match request {
        Request::Tape(request) => answer_of_rows(alloc, request, &rows_of(alloc, text)?),
        Request::SourceRows(size) => {
            let rows = linked_of(alloc, size, text)?.rows()?;
            Ok(row_codes(alloc, &rows)?)
        }
        Request::Punch(settings) => punch(alloc, settings, text),
        Request::Listing(settings) => list(alloc, settings, text),
    }
}

/// What is answered about the rows of a text that is not too long.
fn answer_of_rows(alloc: Global, request: RowsRequest, rows: &[Code]) -> Result<Reply, Rejection>
    requires { length rows.now ≤ INPUT_BYTES }
    ensures { IsAnswered (answers_to_rows request) rows.now result }
{
    match request {
        RowsRequest::Codes => Ok(row_codes(alloc, rows)?),
        RowsRequest::Items(size) => row_items(alloc, size, rows),
        RowsRequest::Items1 => row_items1(alloc, rows),
    }
}
