ghost use Rattle.std.specs.Prelude.{◌≡◌, ◌↔◌, ℕ, ◌*◌, ◌<◌, ◌^◌, IsTrue, IfOk, length, replicate, slice_index};
ghost use Rattle.ed_store.specs.Cells.{Cells, IsStore, cleared_cells, short_at};
ghost use Rattle.ed_store.specs.Cells.{long_at, sandwich_at, with_short, with_long};

use ed_words::{Long, NoMemory, Word};
use std::alloc::Global;
use std::marker::Model;

/// The number of locations of a store. A machine may reach only the lower half of them.
pub const LOCATIONS: usize = 1024;

/// The number of pairs of locations.
const PAIRS: usize = LOCATIONS / 2;

/// 1,024 words and the sandwich digits of their 512 pairs.
#[derive(Drop)]
pub struct Store {
    alloc: Global,
    /// The long word of each pair.
    cells: Vec<u64>,
}

impl Model for Store {
    ghost use Rattle.ed_store.specs.Cells.{Cells};
    ghost use Rattle.ed_store.specs.Packed.{ArePacked, unpacked_cells};

    ghost Value = { Cells };

    ghost view = { λ s. unpacked_cells s.cells.items };

    ghost invariant = { λ s. ArePacked s.cells.items };
}

impl Store {
    /// A store with 0 in every word and sandwich digit.
    pub fn cleared(alloc: Global) -> Result<Store, NoMemory>
        ensures { IfOk result (λ s. s ≡ cleared_cells) }
    {
        let cells = cleared_cells(alloc)?;
        Ok(Store { alloc, cells })
    }

    /// A store with equal contents.
    pub fn copy(&self) -> Result<Store, NoMemory>
        ensures { IfOk result (λ s. s ≡ self.now) }
    {
        let cells = self.cells.as_slice().to_vec(self.alloc)?;
        Ok(Store {
            alloc: self.alloc,
            cells,
        })
    }

    /// The long words of all pairs, that of the locations 0 and 1 first.
    pub fn cells(&self) -> &[u64]
        ensures many { length result.now ≡ 512 }
        ensures long { (k : ℕ) → k < 512 → slice_index result.now k ≡ long_at self.now (2 * k) }
    {
        self.cells.as_slice()
    }

    /// The word of a location.
    pub fn short(&self, a: u16) -> Word
        requires { a < 1024 }
        ensures is { result ≡ short_at self.now a }
        ensures fits { result < 2 ^ 17 }
        ensures store { IsStore self.now }
    {
        let cell = self.cells[usize::from(a / 2)];
        let half = if a % 2 == 0 { cell } else { cell >> 18 };
        Word::of_number((half % (1 << 17)) as u32)
    }

    /// The long word of a location's pair.
    pub fn long(&self, a: u16) -> Long
        requires { a < 1024 }
        ensures { result ≡ long_at self.now a }
    {
        Long::of_number(self.cells[usize::from(a / 2)])
    }

    /// The sandwich digit of a location's pair.
    pub fn sandwich(&self, a: u16) -> bool
        requires { a < 1024 }
        ensures { result ≡ sandwich_at self.now a }
    {
        (self.cells[usize::from(a / 2)] >> 17) % 2 == 1
    }

    /// Writes a word. The sandwich digit of its pair is unchanged.
    pub fn put_short(&mut self, a: u16, word: Word)
        requires { a < 1024 }
        ensures is { self.new ≡ with_short self.old a word }
        ensures store { IsStore self.old }
    {
        let pair = usize::from(a / 2);
        let cell = self.cells[pair];
        let number = u64::from(word.value());
        self.cells[pair] = if a % 2 == 0 {
            ((cell >> 17) << 17) + number
        } else {
            cell % (1 << 18) + (number << 18)
        };
    }

    /// Writes both words of a location's pair and its sandwich digit.
    pub fn put_long(&mut self, a: u16, long: Long)
        requires { a < 1024 }
        ensures { self.new ≡ with_long self.old a long }
    {
        self.cells[usize::from(a / 2)] = long.value();
    }

    /// Whether two stores have the same words and the same sandwich digits.
    pub fn equals(&self, other: &Store) -> bool
        ensures { IsTrue result ↔ (self.now ≡ other.now) }
    {
        same_cells(&self.cells, &other.cells)
    }
}

/// 0 for every pair.
fn cleared_cells(alloc: Global) -> Result<Vec<u64>, NoMemory>
    ensures { IfOk result (λ v. v.items ≡ replicate 512 0) }
{
    Ok(vec![in alloc; 0u64; PAIRS]?)
}

fn same_cells(xs: &[u64], ys: &[u64]) -> bool
    ensures { IsTrue result ↔ (xs.now ≡ ys.now) }
{
    xs == ys
}
