// Instants of a machine's actions, found tick by tick.
ghost use Rattle.std.specs.Prelude.{◌≡◌, ◌<◌};
ghost use Rattle.model.specs.Machine.{count};
ghost use Rattle.sheet.specs.Meant.{meant};
ghost use Rattle.plain.specs.Plain.{has_instant, instants};
ghost use Rattle.plain.specs.Inside.{FirstInstant};

use sheet::Machine;
use window::MachineWindow;

// The first instant of action k in a window, if there is one.
pub(crate) fn first_instant(window: &MachineWindow<'_>, k: usize) -> Option<u32>
    requires { k < count (meant window.now.machine) }
    ensures { FirstInstant (meant window.now.machine) k window.now.from window.now.length result }
{
    (window.from..window.from + window.length).find(|&t| window.machine.has_instant(k, t))
}

// Whether some action of the machine has an instant at t.
fn machine_has_instant(machine: &Machine<'_>, t: u32) -> bool
    ensures { result ≡ has_instant (meant machine.now) t }
{
    (0..machine.actions()).any(|k| machine.has_instant(k, t))
}

// How many instants of the machine the window holds, an instant counted once.
pub(crate) fn instants_in(window: &MachineWindow<'_>) -> usize
    ensures { result ≡ instants (meant window.now.machine) window.now.from window.now.length }
{
    let to = window.from + window.length;
    (window.from..to)
        .filter(|&t| machine_has_instant(&window.machine, t))
        .count()
}
