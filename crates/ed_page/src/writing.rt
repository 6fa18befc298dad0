ghost use Rattle.std.specs.Prelude.{◌≡◌, ◌≤◌, ◌++◌, drop, length};
ghost use Rattle.ed_page.specs.Pictures.{PicturesStore, PicturesRegisters};

use ed_codes::Code;
use ed_machine::Machine;

/// The value for the last printed code if nothing was printed: a number that is not a code.
pub const NO_CODE: u64 = 32;

/// The lengths of two texts in their buffers.
#[repr(C)]
#[derive(Drop)]
pub struct Lengths {
    pub out: u64,
    pub note: u64,
}

/// The registers of a machine, the number of rows left of its tape, and the lengths of the texts of a picture. If no
/// run is shown no code was printed, and all others but the lengths are 0.
#[repr(C)]
#[derive(Drop)]
pub struct Registers {
    /// The 36 least significant digits of the accumulator.
    pub acc_low: u64,
    /// The other 35.
    pub acc_high: u64,
    pub multiplier: u64,
    /// The number of orders obeyed.
    pub orders: u64,
    /// The number of rows of the tape that are left.
    pub rows_left: u64,
    /// The location of the next order.
    pub counter: u64,
    /// The last printed code, or `NO_CODE` if nothing was printed.
    pub last: u64,
    /// The number of bytes of the teleprinter's text.
    pub printed: u64,
    /// The number of bytes of the note.
    pub noted: u64,
}

/// Writes every word and sandwich digit of the store.
pub fn write_store(machine: &Machine, words: &mut [u32], digits: &mut [u8])
    requires words { length words.old ≡ 1024 }
    requires digits { length digits.old ≡ 512 }
    ensures { PicturesStore machine.now.store words.new digits.new }
{
    for a in 0..1024u16 {
        words[usize::from(a)] = machine.word(a).value();
    }
    for k in 0..512u16 {
        digits[usize::from(k)] = u8::from(machine.sandwich(2 * k));
    }
}

/// Writes a text at the beginning of a buffer, and keeps its other bytes.
pub fn write_text(text: &[u8], buffer: &mut [u8])
    requires { length text.now ≤ length buffer.old }
    ensures { buffer.new ≡ text.now ++ drop (length text.now) buffer.old }
{
    buffer[..text.len()].copy_from_slice(text);
}

/// Writes codes at the beginning of a buffer, and keeps its other bytes.
pub fn write_codes(codes: &[Code], buffer: &mut [u8])
    requires { length codes.now ≤ length buffer.old }
    ensures { buffer.new ≡ codes.now ++ drop (length codes.now) buffer.old }
{
    for (place, code) in codes.iter().enumerate() {
        buffer[place] = code.value();
    }
}

/// The registers of a machine, with the lengths of two texts.
pub fn registers_of(machine: &Machine, lengths: Lengths) -> Registers
    ensures registers { PicturesRegisters machine.now result }
    ensures printed { result.printed ≡ lengths.out }
    ensures noted { result.noted ≡ lengths.note }
{
    let last = match machine.last_printed() {
        Some(code) => u64::from(code.value()),
        None => NO_CODE,
    };
    Registers {
        acc_low: (machine.acc() & 0xF_FFFF_FFFF) as u64,
        acc_high: (machine.acc() >> 36) as u64,
        multiplier: machine.multiplier().value(),
        orders: machine.orders_done(),
        rows_left: machine.rows_left().len() as u64,
        counter: u64::from(machine.counter()),
        last,
        printed: lengths.out,
        noted: lengths.note,
    }
}
