ghost use Rattle.std.specs.Prelude.{◌≡◌, ◌+◌, ◌-◌, ◌≤◌, ◌^◌, ◌++◌, IfOk, MatchResult, vec_len, vec_capacity};
ghost use Rattle.ed_words.specs.Words.{function_of};
ghost use Rattle.ed_machine.specs.OrderTable.{next_word};
ghost use Rattle.ed_machine.specs.Steps.{AreObeyed, state_after};
ghost use Rattle.ed_report.specs.Traces.{functions_after};
ghost use Rattle.ed_stepper.specs.Sessions.{Moves, MovesBack, stands_at};
ghost use Rattle.ed_stepper.specs.declared.moves.MoveTarget.TheVariants.{Address, Entry, Orders};

use crate::checkpoints::{Checkpoint, latest, replay};
use crate::moves::{BackFault, MoveEnd, MoveTarget, Moved};
use crate::walk::walk;
use ed_codes::Code;
use ed_machine::Machine;
use ed_words::NoMemory;
use std::alloc::Global;
use std::marker::Model;

/// A machine that is moved forward by its orders from a start, and back.
///
/// A copy of the machine is kept each time the number of orders obeyed reaches a multiple of 65,536, so that moving
/// back takes few orders. A copy for which no memory is found is omitted.
#[derive(Drop)]
pub struct Session {
    alloc: Global,
    start: Machine,
    machine: Machine,
    checkpoints: Vec<Checkpoint>,
    limit: u64,
    done: u64,
}

impl Model for Session {
    ghost use Rattle.ed_stepper.specs.Sessions.{Stand};
    ghost use Rattle.ed_stepper.specs.Kept.{IsSession};

    ghost Value = { Stand };

    ghost view = { λ s. record { start = s.start; limit = s.limit; done = s.done } };

    ghost invariant = { λ s. IsSession s.start s.machine s.checkpoints.items s.limit s.done };
}

/// Why no session was made.
#[derive(Drop)]
pub enum NewFault {
    /// No memory was found for a copy of the machine, which is handed back unchanged.
    Memory(Machine),
}

impl From<NewFault> for NoMemory {
    fn from(_fault: NewFault) -> NoMemory {
        NoMemory
    }
}

/// The functions of the orders that a move obeyed.
#[derive(Drop)]
pub struct Traced {
    /// The function of each order, in the order in which they were obeyed.
    pub functions: Vec<Code>,
    /// The move.
    pub moved: Moved,
}

impl Session {
    /// A session that begins with the machine in its present state, and may obey at most `limit` orders.
    pub fn new(alloc: Global, machine: Machine, limit: u64) -> Result<Session, NewFault>
        requires { machine.orders + limit ≤ 2 ^ 63 }
        ensures { MatchResult result (λ s. s ≡ record { start = machine; limit = limit; done = 0 })
            (λ e. e ≡ NewFault.Memory machine) }
    {
        match machine.copy() {
            Ok(start) => Ok(Session {
                alloc,
                start,
                machine,
                checkpoints: Vec::new(alloc),
                limit,
                done: 0,
            }),
            Err(_) => Err(NewFault::Memory(machine)),
        }
    }

    /// The machine in its present state: after the orders obeyed since the start.
    pub fn machine(&self) -> &Machine
        ensures is { result.now ≡ stands_at self.now }
        ensures free { AreObeyed self.now.done self.now.start }
        ensures most { self.now.done ≤ self.now.limit }
    {
        &self.machine
    }

    /// Obeys n orders, or fewer if another end comes first.
    pub fn go(&mut self, n: u64) -> Moved
        ensures { Moves (Orders n) self.old self.new result }
    {
        self.advance(MoveTarget::Orders(n))
    }

    /// Obeys orders, at least one, until the counter is the address or another end comes.
    pub fn to(&mut self, address: u16) -> Moved
        ensures { Moves (Address address) self.old self.new result }
    {
        self.advance(MoveTarget::Address(address))
    }

    /// Obeys orders until an E order at 22 has jumped or another end comes.
    pub fn until_entry(&mut self) -> Moved
        ensures { Moves Entry self.old self.new result }
    {
        self.advance(MoveTarget::Entry)
    }

    /// Obeys n orders as `go` does, and gives the function of each order obeyed. A refusal changes nothing.
    pub fn trace(&mut self, n: u64) -> Result<Traced, NoMemory>
        requires { n ≤ 10000 }
        ensures { MatchResult result
            (λ t. Moves (Orders n) self.old self.new t.moved
            × (t.functions.items ≡ functions_after (t.moved.done - self.old.done) (stands_at self.old)))
            (λ _. self.new ≡ self.old) }
    {
        let mut functions = Vec::with_capacity(self.alloc, n as usize)?;
        let mut machine = self.machine.copy()?;
        let before = self.done;
        let moved = self.go(n);
        list_functions(&mut machine, moved.done - before, &mut functions);
        Ok(Traced { functions, moved })
    }

    /// Goes back by n orders; `TooFar` exactly if fewer were obeyed. A refusal changes nothing.
    pub fn back(&mut self, n: u64) -> Result<Moved, BackFault>
        ensures { MovesBack n self.old result self.new }
    {
        if self.done < n {
            return Err(BackFault::TooFar { done: self.done });
        }
        let done = self.done - n;
        self.machine = self.again(done)?;
        self.done = done;
        Ok(Moved {
            at: self.machine.counter(),
            done,
            end: MoveEnd::Back,
        })
    }

    /// Moves forward until an end comes.
    pub(crate) fn advance(&mut self, aim: MoveTarget) -> Moved
        ensures { Moves aim self.old self.new result }
    {
        let walked = walk(
            &mut self.machine,
            &mut self.checkpoints,
            self.done,
            aim,
            self.limit - self.done,
        );
        self.done += walked.orders;
        Moved {
            at: self.machine.counter(),
            done: self.done,
            end: walked.end,
        }
    }

    /// The machine after this number of orders, which were obeyed before: from the latest copy that is not past them.
    fn again(&self, done: u64) -> Result<Machine, NoMemory>
        requires { done ≤ self.now.done }
        ensures is { IfOk result (λ m. m ≡ state_after done self.now.start) }
        ensures count { IfOk result (λ m. m.orders ≤ self.now.start.orders + done) }
    {
        match latest(&self.checkpoints, done) {
            Some(place) => {
                let checkpoint = &self.checkpoints[place];
                replay(&checkpoint.machine, done - checkpoint.done)
            }
            None => replay(&self.start, done),
        }
    }
}

/// Obeys orders and lists the function of each.
fn list_functions(machine: &mut Machine, count: u64, functions: &mut Vec<Code>)
    requires orders { machine.old.orders + count ≤ 2 ^ 63 }
    requires room { vec_len functions.old + count ≤ vec_capacity functions.old }
    ensures { functions.new.items ≡ functions.old.items ++ functions_after count machine.old }
{
    for done in 0..count {
        functions.push_reserved(next_function(machine));
        let _ = machine.step();
    }
}

/// The function of the order at the counter.
pub(crate) fn next_function(machine: &Machine) -> Code
    ensures { result ≡ function_of (next_word machine.now) }
{
    let function = machine.word(machine.counter()).order().function;
    Code::new(function).unwrap()
}
