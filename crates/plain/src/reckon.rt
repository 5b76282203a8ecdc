// The reckoning: a state asks each of its actions, an action asks its sink state. The window falls from an action to
// its sink, and the number of actions left to ask from one action to the next.
ghost use Rattle.std.specs.Prelude.{◌≡◌, ◌≤◌, ◌<◌, eqb};
ghost use Rattle.model.specs.Machine.{count};
ghost use Rattle.model.specs.Legal.{requested};
ghost use Rattle.model.specs.Reckon.{most, request};
ghost use Rattle.model.specs.Inside.{at_first, asks_from};
ghost use Rattle.sheet.specs.Meant.{meant};

use crate::instant;
use window::MachineWindow;

// The request bound of a window: a first pair may have any source state.
#[tactic(auto, unfolding(model::specs::Reckon::most))]
pub(crate) fn machine_asks(window: &MachineWindow<'_>) -> u32
    ensures { result ≡ request (meant window.now.machine) window.now.from window.now.length }
{
    let mut most = 0;
    for state in 0..window.machine.states() {
        most = most.max(state_asks(window, state, window.machine.actions()));
    }
    most
}

// The most that those of the first `left` actions that leave a state ask in a window.
#[tactic(auto, unfolding(model::specs::Reckon::most))]
#[cycle(action_asks_state_asks)]
fn state_asks(window: &MachineWindow<'_>, state: usize, left: usize) -> u32
    requires { left ≤ count (meant window.now.machine) }
    ensures { let m = meant window.now.machine in
        result ≡ most left (asks_from m (requested m) window.now.from window.now.length (eqb state)) }
{
    if left == 0 {
        return 0;
    }
    let k = left - 1;
    let others = state_asks(window, state, k);
    if window.machine.action(k).source != state {
        return others;
    }
    others.max(action_asks(window, k))
}

// What action k asks in a window: at its first instant its cost, and the most that its sink then asks.
#[cycle(action_asks_state_asks)]
fn action_asks(window: &MachineWindow<'_>, k: usize) -> u32
    requires { k < count (meant window.now.machine) }
    ensures { result ≡ at_first (meant window.now.machine) (requested (meant window.now.machine)) window.now.from
        window.now.length k }
{
    let Some(instant) = instant::first_instant(window, k) else {
        return 0;
    };
    let machine = window.machine;
    let from = instant + 1;
    let rest = MachineWindow {
        machine,
        from,
        length: window.from + window.length - from,
    };
    machine.cost(k) + state_asks(&rest, machine.action(k).sink, machine.actions())
}
