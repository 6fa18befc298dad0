ghost use Rattle.std.specs.Prelude.{◌≡◌, ◌<◌, ◌≤◌, ◌+◌, ◌^◌, IfOk, false, length};
ghost use Rattle.ed_words.specs.Sizes.{locations};
ghost use Rattle.ed_words.specs.declared.size.Size.TheVariants.{Full};
ghost use Rattle.ed_store.specs.Cells.{Cells, IsStore, long_at, sandwich_at, short_at};
ghost use Rattle.ed_machine.specs.State.{State, cleared_state};
ghost use Rattle.ed_machine.specs.OrderTable.{step};
ghost use Rattle.ed_machine.specs.Sound.{CountsOrders, StaysSound};
ghost use Rattle.ed_machine.specs.Steps.{is_obeyed, state_after};
ghost use Rattle.ed_machine.specs.Reached.{IsReached, state_of};
ghost use Rattle.ed_machine.specs.Start.{EndsWith, start_state, with_image};

mod obeying;

use crate::Turn;
use ed_acc::Acc;
use ed_codes::Code;
use ed_orders::kind_of;
use ed_store::Store;
use ed_words::{Long, NoMemory, Size, Word};
use std::alloc::Global;
use std::marker::Model;
use std::mem;

/// The machine of 1949 with its order code, on a store of 512 or 1,024 locations.
#[derive(Drop)]
pub struct Machine {
    alloc: Global,
    size: Size,
    /// The last location that the orders reach. All its digits are 1, so it reduces a number modulo the size.
    last_place: usize,
    store: Store,
    acc: Acc,
    multiplier: Long,
    /// The location of the next order.
    counter: usize,
    tape: Vec<Code>,
    /// The index in `tape` of the next row.
    row: usize,
    last: Option<Code>,
    orders: u64,
}

/// The whole state of a machine between two orders.
#[derive(Drop)]
pub struct Parts {
    pub size: Size,
    pub store: Store,
    pub acc: Acc,
    pub multiplier: Long,
    /// The location of the next order.
    pub counter: u16,
    /// The rows not yet read.
    pub tape: Vec<Code>,
    /// The last printed code; None if nothing was printed.
    pub last: Option<Code>,
    /// The number of orders obeyed.
    pub orders: u64,
}

impl Model for Machine {
    ghost use Rattle.std.specs.Prelude.{◌≡◌, ◌+◌, ◌<◌, ◌≤◌, length, drop};
    ghost use Rattle.ed_machine.specs.State.{State};
    ghost use Rattle.ed_words.specs.Sizes.{locations};

    ghost Value = { State };

    ghost view = { λ m. record {
      size = m.size;
      store = m.store;
      acc = m.acc;
      multiplier = m.multiplier;
      counter = m.counter;
      tape = drop m.row m.tape.items;
      last = m.last;
      orders = m.orders;
    } };

    ghost invariant = { λ m. (m.counter < 1024) × (m.counter < locations m.size)
        × (m.last_place + 1 ≡ locations m.size) × (m.row ≤ length m.tape.items) };
}

impl Machine {
    /// A cleared machine of 1,024 locations: 0 in every word, sandwich digit and register, no tape, nothing printed.
    pub fn cleared(alloc: Global) -> Result<Machine, NoMemory>
        ensures { IfOk result (λ m. m ≡ cleared_state Full) }
    {
        Machine::cleared_of(alloc, Size::Full)
    }

    /// A cleared machine of a given size.
    pub fn cleared_of(alloc: Global, size: Size) -> Result<Machine, NoMemory>
        ensures { IfOk result (λ m. m ≡ cleared_state size) }
    {
        let store = Store::cleared(alloc)?;
        Ok(Machine {
            alloc,
            size,
            last_place: last_place(size),
            store,
            acc: Acc::cleared(),
            multiplier: Long::of_short(Word::of_number(0)),
            counter: 0,
            tape: Vec::new(alloc),
            row: 0,
            last: None,
            orders: 0,
        })
    }

    /// A machine in a state that Start and orders lead to, from its parts; the caller has to prove that they do. So a
    /// program gets into a store only by Start and by orders.
    pub fn reached(alloc: Global, parts: Parts) -> Machine
        requires is { IsReached (state_of parts) }
        requires counter { parts.counter < locations parts.size }
        ensures { result ≡ state_of parts }
    {
        Machine {
            alloc,
            size: parts.size,
            last_place: last_place(parts.size),
            store: parts.store,
            acc: parts.acc,
            multiplier: parts.multiplier,
            counter: usize::from(parts.counter),
            tape: parts.tape,
            row: 0,
            last: parts.last,
            orders: parts.orders,
        }
    }

    /// An equal machine.
    pub fn copy(&self) -> Result<Machine, NoMemory>
        ensures { IfOk result (λ m. m ≡ self.now) }
    {
        let store = self.store.copy()?;
        let tape = self.tape[self.row..].to_vec(self.alloc)?;
        Ok(Machine {
            alloc: self.alloc,
            size: self.size,
            last_place: self.last_place,
            store,
            acc: self.acc,
            multiplier: self.multiplier,
            counter: self.counter,
            tape,
            row: 0,
            last: self.last,
            orders: self.orders,
        })
    }

    /// Start: places the words of an image from location 0 upwards, sets the counter to 0 and mounts a tape. All else
    /// stays, the accumulator and the sandwich digits included. Hands back the list of the old tape, which ends with
    /// the rows that were not read; nothing is claimed of the rows before them.
    pub fn start(&mut self, image: &[Word], tape: Vec<Code>) -> Vec<Code>
        requires { length image.now ≤ 41 }
        ensures state { self.new ≡ start_state image.now tape.items self.old }
        ensures old_rows { EndsWith result.items self.old.tape }
    {
        place_image(&mut self.store, image);
        self.counter = 0;
        self.row = 0;
        mem::replace(&mut self.tape, tape)
    }

    /// Obeys the order at the counter.
    ///
    /// The answer is `NoOrder` exactly if the word at the counter is not an order, and `NoTape` exactly if it is an I
    /// order and no row is left; both change nothing. Two laws of the order table are stated here too: steps keep the
    /// bounds of a state, and steps that each obey an order are counted.
    #[inline(always)]
    #[tactic(auto, unfolding(crate::specs::OrderTable::step))]
    pub fn step(&mut self) -> Turn
        requires { self.old.orders < 2 ^ 63 }
        ensures state { self.new ≡ (step self.old).state }
        ensures turn { result ≡ (step self.old).turn }
        ensures blocked { is_obeyed result ≡ false → self.new ≡ self.old }
        ensures sound { StaysSound }
        ensures counted { CountsOrders }
        ensures count { self.new.orders ≤ self.old.orders + 1 }
    {
        let word = self.store.short(self.counter as u16);
        let function = word.order().function;
        match kind_of(function) {
            Some(kind) => self.obey(kind, word),
            None => Turn::NoOrder(function),
        }
    }

    /// Obeys the next `count` orders, whatever they do.
    pub fn obey_next(&mut self, count: u64)
        requires { self.old.orders + count ≤ 2 ^ 63 }
        ensures state { self.new ≡ state_after count self.old }
        ensures count { self.new.orders ≤ self.old.orders + count }
    {
        for done in 0..count {
            self.step();
        }
    }

    /// The number of locations that the orders reach.
    pub fn size(&self) -> Size
        ensures is { result ≡ self.now.size }
        ensures counter { self.now.counter < locations self.now.size }
    {
        self.size
    }

    /// The word of a location.
    pub fn word(&self, a: u16) -> Word
        requires { a < 1024 }
        ensures is { result ≡ short_at self.now.store a }
        ensures fits { result < 2 ^ 17 }
        ensures store { IsStore self.now.store }
    {
        self.store.short(a)
    }

    /// The long word of a location's pair.
    pub fn long(&self, a: u16) -> Long
        requires { a < 1024 }
        ensures { result ≡ long_at self.now.store a }
    {
        self.store.long(a)
    }

    /// The sandwich digit of a location's pair.
    pub fn sandwich(&self, a: u16) -> bool
        requires { a < 1024 }
        ensures { result ≡ sandwich_at self.now.store a }
    {
        self.store.sandwich(a)
    }

    /// The store.
    pub fn store(&self) -> &Store
        ensures { result.now ≡ self.now.store }
    {
        &self.store
    }

    /// The accumulator's 71 digits, in units of 2^-70.
    pub fn acc(&self) -> u128
        ensures is { result ≡ self.now.acc }
        ensures fits { result < 2 ^ 71 }
    {
        self.acc.value()
    }

    /// The multiplier register.
    pub fn multiplier(&self) -> Long
        ensures { result ≡ self.now.multiplier }
    {
        self.multiplier
    }

    /// The location of the next order.
    pub fn counter(&self) -> u16
        ensures is { result ≡ self.now.counter }
        ensures fits { result < locations self.now.size }
    {
        self.counter as u16
    }

    /// The number of orders obeyed since the machine was cleared.
    pub fn orders_done(&self) -> u64
        ensures { result ≡ self.now.orders }
    {
        self.orders
    }

    /// The rows of the tape not yet read.
    pub fn rows_left(&self) -> &[Code]
        ensures { result.now ≡ self.now.tape }
    {
        &self.tape[self.row..]
    }

    /// The last printed code; None if nothing was printed since the machine was cleared.
    pub fn last_printed(&self) -> Option<Code>
        ensures { result ≡ self.now.last }
    {
        self.last
    }
}

/// The last location that the orders of a machine of a given size reach.
fn last_place(size: Size) -> usize
    ensures { result + 1 ≡ locations size }
{
    usize::from(size.value() - 1)
}

/// Writes the words of an image from location 0 upwards.
fn place_image(store: &mut Store, image: &[Word])
    requires { length image.now ≤ 1024 }
    ensures { store.new ≡ with_image image.now store.old }
{
    for (i, word) in image.iter().enumerate() {
        store.put_short(i as u16, *word);
    }
}
