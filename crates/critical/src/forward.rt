// The walk forward: at each tick the smallest action that makes up what is left of the bound.
ghost use Rattle.std.specs.Prelude.{◌≡◌, []};
ghost use Rattle.model.specs.Critical.{critical};
ghost use Rattle.sheet.specs.Meant.{meant};
ghost use Rattle.walk.specs.Inside.{Ready, Joins};
ghost use Rattle.rows.specs.Inside.{Rows};
ghost use Rattle.critical.specs.Inside.{arrays_of, may_leave, makes_up, FirstMaking};

use crate::LONGEST_SEQUENCE;
use arrayvec::ArrayVec;
use model::Way;
use rows::MaskedWindow;
use sheet::Machine;
use walk::{Marked, Row, WINDOW_MASKS};

// Traces the critical sequence of a window's ticks by its rows: an array of action and instant for each pair.
pub(crate) fn trace(
    masked: &MaskedWindow<'_>,
    rows: &[Row; WINDOW_MASKS],
    pairs: &mut ArrayVec<[u32; 2], LONGEST_SEQUENCE>,
)
    requires laid { Rows (meant masked.now.window.machine) masked.now.window.from masked.now.window.length 0 rows.now }
    requires none { pairs.old.items ≡ [] }
    ensures { pairs.new.items ≡ arrays_of (critical (meant masked.now.window.machine)
        masked.now.window.from masked.now.window.length) }
{
    let window = &masked.window;
    let mut leaves = None;
    let mut left = walk::top(&rows[0], window.machine.states());
    for (k, &mask) in masked.masks.iter().enumerate() {
        if let Some(j) = first_making(&window.machine, mask, leaves, left, &rows[k + 1]) {
            left -= window.machine.cost(j);
            leaves = Some(window.machine.action(j).sink);
            pairs.push([j as u32, window.from + k as u32]);
        }
    }
}

// The smallest action of the mask that makes up what is left, if one does.
fn first_making(
    machine: &Machine<'_>,
    mask: u32,
    leaves: Option<usize>,
    left: u32,
    later: &Row,
) -> Option<usize>
    requires { Ready (meant machine.now) mask later.now }
    ensures { FirstMaking (meant machine.now) mask leaves left later.now result }
{
    for j in Marked(mask) {
        if makes_up(machine, j, leaves, left, later) {
            return Some(j);
        }
    }
    None
}

// Whether action j may be the next, and makes up what is left with its sink's figure.
fn makes_up(machine: &Machine<'_>, j: usize, leaves: Option<usize>, left: u32, later: &Row) -> bool
    requires { Joins (meant machine.now) j later.now }
    ensures { result ≡ makes_up (meant machine.now) leaves left later.now j }
{
    may_leave(leaves, machine.action(j).source)
        && walk::brought(&machine.entry, j, Way::Back, later) == left
}

// Whether the next pair may leave a state: any at first, and then the last pair's sink.
fn may_leave(leaves: Option<usize>, state: usize) -> bool
    ensures { result ≡ may_leave leaves state }
{
    leaves.is_none_or(|q| q == state)
}
