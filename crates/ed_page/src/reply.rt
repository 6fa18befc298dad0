ghost use Rattle.std.specs.Prelude.{◌≡◌, ◌≢◌, ◌<◌, ℕ};
ghost use Rattle.ed_page.specs.Answers.{text_buffers};
ghost use Rattle.ed_page.specs.Private.Stages.{AreTextsWritten, IsWrittenOut, told_outcome};

use crate::writing::{Lengths, write_text};

/// The answer if no memory was found.
pub const NO_MEMORY: u32 = 10;

/// The status if a text is too long.
pub const TOO_LONG_STATUS: u8 = 11;

/// The answer if a buffer has no room.
pub const NO_ROOM: u32 = 12;

/// Writes the two texts of an answer and their lengths, if the buffers have room, and answers the status.
pub fn write_reply(
    answer: &[u8],
    line: &[u8],
    status: u8,
    out: &mut [u8],
    note: &mut [u8],
    lengths: &mut Lengths,
) -> u32
    requires low { status < 12 }
    requires found { status ≢ 10 }
    ensures { IsWrittenOut (told_outcome answer.now line.now status) (text_buffers out.old note.old lengths.old)
        (text_buffers out.new note.new lengths.new) result }
{
    match write_texts(answer, line, out, note) {
        Some(written) => {
            *lengths = written;
            u32::from(status)
        }
        None => NO_ROOM,
    }
}

/// Writes two texts at the beginnings of two buffers, and answers their lengths; None, with nothing written, if a
/// buffer has no room.
pub fn write_texts(answer: &[u8], line: &[u8], out: &mut [u8], note: &mut [u8]) -> Option<Lengths>
    ensures { (status : ℕ) →
        AreTextsWritten (told_outcome answer.now line.now status) out.old note.old out.new note.new result }
{
    if out.len() < answer.len() || note.len() < line.len() {
        return None;
    }
    write_text(answer, out);
    write_text(line, note);
    Some(Lengths {
        out: answer.len() as u64,
        note: line.len() as u64,
    })
}
