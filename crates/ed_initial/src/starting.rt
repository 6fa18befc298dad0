ghost use Rattle.std.specs.Prelude.{◌≡◌, ◌↔◌, IsTrue};
ghost use Rattle.ed_machine.specs.Start.{EndsWith, start_state};
ghost use Rattle.ed_initial.specs.Listing.{initial_orders};
ghost use Rattle.ed_initial.specs.Entry.{IsStarted};

use crate::listing::orders;
use ed_codes::Code;
use ed_machine::Machine;

/// Starts the machine, whatever its state, on a tape with the Initial Orders.
///
/// Hands back the list of the old tape as `Machine::start` does.
pub fn begin(machine: &mut Machine, rows: Vec<Code>) -> Vec<Code>
    ensures state { machine.new ≡ start_state initial_orders rows.items machine.old }
    ensures started { IsStarted machine.new }
    ensures old_rows { EndsWith result.items machine.old.tape }
{
    machine.start(&orders(), rows)
}

/// Whether the machine is at the first of the Initial Orders, with the locations 0 to 40 as Start leaves them.
pub fn is_started(machine: &Machine) -> bool
    ensures { IsTrue result ↔ IsStarted machine.now }
{
    if machine.counter() != 0 {
        return false;
    }
    for (place, order) in orders().iter().enumerate() {
        if machine.word(place as u16) != *order {
            return false;
        }
    }
    true
}
