ghost use Rattle.std.specs.Prelude.{◌≡◌, ◌+◌, ◌*◌, ◌^◌, ◌<◌, ◌≤◌, length, slice_index};
ghost use Rattle.ed_routines.specs.Catalogue.{read, with_h};
ghost use Rattle.ed_routines.specs.Digits.{after_digits, digit_rows};
ghost use Rattle.ed_routines.specs.Returns.{IsAfter, KeepsBut, ReadLeaves, orders_taken, read_back};
ghost use Rattle.ed_routines.specs.Standing.{IsOutside, IsLoadedAt};

use crate::calling::return_address;
use ed_codes::Code;
use ed_machine::Machine;

/// How `read` ended.
#[derive(Clone, Copy)]
pub enum ReadBack {
    /// It read an ending row and returned.
    Back {
        /// The location after its call.
        at: u16,
        /// The number of orders obeyed, including the one that returned.
        orders: u64,
    },
    /// The tape had no ending row.
    NoTape {
        /// The number of orders obeyed.
        orders: u64,
    },
}

/// Runs `read` at `base` with H = 2h: it reads rows up to the first one with a code of 10 or more, and puts the number
/// of the digits, modulo 2^17, at `h`.
pub fn read_integer(machine: &mut Machine, base: u16, h: u16) -> ReadBack
    requires stands { IsLoadedAt read (with_h h) base machine.old }
    requires outside { IsOutside read base h machine.old }
    requires orders { machine.old.orders + (3 + 13 * length machine.old.tape) ≤ 2 ^ 63 }
    ensures back { result ≡ read_back machine.old }
    ensures after { IsAfter (orders_taken result) machine.old machine.new }
    ensures words { KeepsBut h read base machine.old machine.new }
    ensures leaves { ReadLeaves (after_digits machine.old.tape) base h machine.old machine.new }
{
    let at = return_address(machine);
    // Called only for its clause `store`: the proof needs that the store has all its words within their bounds.
    let _ = machine.word(0);
    let rows = machine.rows_left();
    let digits = count_digits(rows);
    if digits == rows.len() {
        let orders = 3 + 13 * digits as u64;
        machine.obey_next(orders);
        ReadBack::NoTape { orders }
    } else {
        let orders = 11 + 13 * digits as u64;
        machine.obey_next(orders);
        ReadBack::Back { at, orders }
    }
}

/// The number of digit rows before the first other row.
fn count_digits(rows: &[Code]) -> usize
    ensures is { result ≡ length (digit_rows rows.now) }
    ensures few { result ≤ length rows.now }
    ensures fits { result < length rows.now → slice_index rows.now result < 32 }
{
    for (index, row) in rows.iter().enumerate() {
        if row.value() >= 10 {
            return index;
        }
    }
    rows.len()
}
