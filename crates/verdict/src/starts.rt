// The walk of one machine and start over the lengths, and of the machines over their starts.
ghost use Rattle.std.specs.Prelude.{◌≡◌, ◌<◌};
ghost use Rattle.model.specs.Search.{first_of};
ghost use Rattle.model.specs.Verdict.{gives, machine_gives};
ghost use Rattle.level.specs.Inside.{machines_of};
ghost use Rattle.verdict.specs.Inside.{found};

use level::{Level, MaskedSheet};
use model::LONGEST_WINDOW;
use reply::{Verdict, Window};

// What machine `machine` gives at start `start`: the first length that closes or fails settles it.
fn start_judged(masked: &MaskedSheet<'_>, machine: usize, start: u32) -> Option<Verdict>
    requires { (machine < masked.now.sheet.machines) × (start < masked.now.sheet.hyperperiod) }
    ensures { found result ≡ gives (machines_of masked.now) machine start }
{
    let mut level = Level::begun(masked, machine, start);
    let mut slack = 0;
    for n in 1..=LONGEST_WINDOW {
        level.tick(masked);
        if level.above + level.own <= n {
            return None;
        }
        slack = slack.max(n.saturating_sub(level.above));
        if slack < level.own {
            let demand = level.demand(masked);
            if slack < demand {
                return Some(Verdict::Late(Window {
                    machine: machine as u32,
                    start,
                    length: n,
                    demand,
                }));
            }
        }
    }
    Some(Verdict::Open {
        machine: machine as u32,
        start,
    })
}

// What machine `machine` gives: the first of its starts that gives something.
fn machine_judged(masked: &MaskedSheet<'_>, machine: usize) -> Option<Verdict>
    requires { machine < masked.now.sheet.machines }
    ensures { found result ≡ machine_gives (machines_of masked.now) machine }
{
    (0..masked.sheet.hyperperiod).find_map(|start| start_judged(masked, machine, start))
}

// What the machines give: the first that gives something.
pub(crate) fn machines_judged(masked: &MaskedSheet<'_>) -> Option<Verdict>
    ensures { found result ≡ first_of (machine_gives (machines_of masked.now)) 0 masked.now.sheet.machines }
{
    (0..masked.sheet.machines).find_map(|machine| machine_judged(masked, machine))
}
