//! The machine that a picture shows, made from its buffers.

ghost use Rattle.std.specs.Prelude.{◌≡◌, ℕ, ◌/◌, ◌%◌, ◌^◌, ◌<◌, IfOk, length, slice_index};
ghost use Rattle.ed_machine.specs.State.{State};
ghost use Rattle.ed_machine.specs.Steps.{state_after};
ghost use Rattle.ed_store.specs.Cells.{Cells, IsStore};
ghost use Rattle.ed_page.specs.Going.{AreCodes, CanGoOn, IsAfterStart};
ghost use Rattle.ed_page.specs.Pictures.{Pictures, PicturesStore};

use crate::running::size_of;
use crate::writing::Registers;
use ed_acc::Acc;
use ed_codes::Code;
use ed_machine::{Machine, Parts};
use ed_store::Store;
use ed_words::{Halves, Long, NoMemory, Word};
use std::alloc::Global;

/// The machine that a picture shows, on the way of the tape that has these rows.
pub fn snapshot(
    alloc: Global,
    small: bool,
    rows: &[u8],
    words: &[u32],
    digits: &[u8],
    registers: &Registers,
) -> Result<Machine, NoMemory>
    requires words { length words.now ≡ 1024 }
    requires digits { length digits.now ≡ 512 }
    requires picture { CanGoOn small rows.now words.now digits.now registers.now }
    ensures { IfOk result (λ m. (first : State) → IsAfterStart small rows.now first → (k : ℕ)
        → Pictures (state_after k first) words.now digits.now registers.now → m ≡ state_after k first) }
{
    let read = rows.len() - registers.rows_left as usize;
    let tape = codes_of(alloc, &rows[read..])?;
    let parts = Parts {
        size: size_of(small),
        store: store_of(alloc, words, digits)?,
        acc: acc_of(registers),
        multiplier: Long::of_number(registers.multiplier),
        counter: registers.counter as u16,
        tape,
        last: Code::new(registers.last as u8),
        orders: registers.orders,
    };
    Ok(Machine::reached(alloc, parts))
}

/// The store with these words and sandwich digits.
fn store_of(alloc: Global, words: &[u32], digits: &[u8]) -> Result<Store, NoMemory>
    requires words { length words.now ≡ 1024 }
    requires digits { length digits.now ≡ 512 }
    requires fit { (a : ℕ) → slice_index words.now a < 2 ^ 17 }
    ensures { IfOk result (λ s. (c : Cells) → IsStore c → PicturesStore c words.now digits.now → s ≡ c) }
{
    let mut store = Store::cleared(alloc)?;
    for k in 0..512u16 {
        let pair = usize::from(k);
        let halves = Halves {
            odd: Word::of_number(words[2 * pair + 1]),
            sandwich: digits[pair] == 1,
            even: Word::of_number(words[2 * pair]),
        };
        store.put_long(2 * k, Long::join(halves));
    }
    Ok(store)
}

/// The accumulator from its two parts.
fn acc_of(registers: &Registers) -> Acc
    ensures { (a : ℕ) → a < 2 ^ 71 → registers.now.acc_low ≡ a % 2 ^ 36 → registers.now.acc_high ≡ a / 2 ^ 36
        → result ≡ a }
{
    let number = (u128::from(registers.acc_high) << 36) + u128::from(registers.acc_low);
    Acc::new(number).unwrap_or(Acc::cleared())
}

/// The codes of numbers below 32.
pub fn codes_of(alloc: Global, numbers: &[u8]) -> Result<Vec<Code>, NoMemory>
    requires { AreCodes numbers.now }
    ensures { IfOk result (λ v. v.items ≡ numbers.now) }
{
    let mut codes = Vec::new(alloc);
    for number in numbers {
        codes.push(Code::new(*number).unwrap_or_default())?;
    }
    Ok(codes)
}
