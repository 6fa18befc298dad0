ghost use Rattle.std.specs.Prelude.{◌≡◌, ◌≢◌, ◌⊎◌, ◌+◌, ◌<◌, length, IfOk, IfErr};
ghost use Rattle.ed_io.specs.Bytes.{IsAtEnd, Loses};
ghost use Rattle.ed_devices.specs.Devices.{WritesLastLine, device};
ghost use Rattle.ed_devices.specs.Stages.{HasInput, WritesReply, input_faults};

use ed_io::{Failed, Sink, Source, WriteStop, write_all};
use ed_tapes::{INPUT_BYTES, Rejection, Reply};
use std::alloc::{AllocError, Global};

/// The most bytes that are read at once.
const PIECE: usize = 4096;

/// Why there is no input.
#[derive(Clone, Copy)]
pub enum InputStop {
    /// A read failed.
    Failed,
    /// No memory was found.
    Memory,
    /// The input has more bytes than the limit.
    TooLong,
}

impl From<Failed> for InputStop {
    ghost use Rattle.std.specs.Prelude.{◌≡◌};
    ghost use Rattle.ed_devices.specs.declared.devices.InputStop.TheVariants.{Failed};

    ghost from_gives = { λ _ e. e ≡ Failed };

    fn from(_failed: Failed) -> InputStop {
        InputStop::Failed
    }
}

impl From<AllocError> for InputStop {
    ghost use Rattle.std.specs.Prelude.{◌≡◌};
    ghost use Rattle.ed_devices.specs.declared.devices.InputStop.TheVariants.{Memory};

    ghost from_gives = { λ _ e. e ≡ Memory };

    fn from(_error: AllocError) -> InputStop {
        InputStop::Memory
    }
}

/// What of a command is still to be written when its text is on `out`.
#[derive(Drop)]
pub struct Rest {
    pub note: Vec<u8>,
    pub status: u8,
}

/// The whole input, if the command reads it, and an empty one otherwise.
pub fn input_of<S: Source>(alloc: Global, reads: bool, source: &mut S) -> Result<Vec<u8>, InputStop>
    ensures { HasInput reads (device S.left S.faults source.old source.new) result }
{
    if !reads {
        return Ok(Vec::new(alloc));
    }
    let input = read_all(alloc, source)?;
    if input.len() > INPUT_BYTES {
        return Err(InputStop::TooLong);
    }
    Ok(input)
}

/// Reads to the end of the input, or one byte more than the limit.
fn read_all<S: Source>(alloc: Global, source: &mut S) -> Result<Vec<u8>, InputStop>
    ensures bytes { IfOk result (λ v. Loses (S.left source.old) (S.left source.new) v.items) }
    ensures end { IfOk result
        (λ v. (length v.items ≡ INPUT_BYTES + 1) ⊎ ((length v.items < INPUT_BYTES + 1) × IsAtEnd (S.left source.new))) }
    ensures short { IfErr result (λ e. e ≢ InputStop.TooLong) }
    ensures faults { S.faults source.new ≡ input_faults result (S.faults source.old) }
{
    let mut input = Vec::new(alloc);
    let mut piece = [0u8; PIECE];
    while input.len() <= INPUT_BYTES {
        let room = piece.len().min(INPUT_BYTES + 1 - input.len());
        let count = source.read(&mut piece[..room])?;
        if count == 0 {
            break;
        }
        input.extend_from_slice(&piece[..count])?;
    }
    Ok(input)
}

/// Writes the text of a reply on `out`, whether it refuses the input or not.
pub fn write<K: Sink>(out: &mut K, reply: Result<Reply, Rejection>) -> Result<Rest, WriteStop>
    ensures { WritesReply reply (device K.held K.faults out.old out.new) result }
{
    let reply = match reply {
        Ok(reply) | Err(Rejection::Refused(reply)) => reply,
        Err(Rejection::Memory) => return Err(WriteStop::Memory),
    };
    write_all(out, &reply.out)?;
    Ok(Rest {
        note: reply.note,
        status: reply.status,
    })
}

/// Writes a line on `note` and answers the status; or 9, if the write fails.
pub fn write_note<L: Sink>(note: &mut L, line: &[u8], status: u8) -> u8
    requires { status ≢ 9 }
    ensures { WritesLastLine (device L.held L.faults note.old note.new) line.now status result }
{
    match write_all(note, line) {
        Ok(()) => status,
        Err(Failed) => 9,
    }
}
