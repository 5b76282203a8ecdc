// The walk over the ticks of a window: which actions may be triggered at each tick, and the row of
// figures, one a state, that is moved from tick to tick. Definitions: specs/Inside.antt. `Ready` and
// `Joins` are clauses and no types: a value of one would be made anew at each tick, for a single call.
#![tactic(auto)]

ghost use Rattle.std.specs.Prelude.{◌≡◌, ◌+◌, ◌^◌, ◌≤◌, ◌<◌, length};
ghost use Rattle.model.specs.Machine.{count, divisor as machine_divisor};
ghost use Rattle.model.specs.Reckon.{most};
ghost use Rattle.model.specs.Inside.{InRange, may_trigger, behind, figure};
ghost use Rattle.sheet.specs.Meant.{entry_meant, meant};
ghost use Rattle.walk.specs.Inside.{bit, Marks, AllMarked, WindowMarked, Ready, Joins, pushed, Ticked};
ghost use Rattle.walk.specs.Inside.{due_or, DueWithin, brought as way_brought};

mod marked;

pub use marked::Marked;
use model::{Action, LONGEST_WINDOW, Way};
use sheet::{Entry, Machine};

// A mask for each tick of the longest window, and one for its end.
pub const WINDOW_MASKS: usize = LONGEST_WINDOW as usize + 1;

// A figure a state.
pub type Row = [u32; 16];

// A machine's last instant so far: how many ticks from the start it is, its mask, and the row before it.
#[derive(Clone, Copy)]
pub struct LastInstant {
    pub ticks: u32,
    pub mask: u32,
    pub row: Row,
}

// Marks the ticks from `from` on, a word each: bit j of a word is 1 where action j may be triggered.
pub fn mark_ticks(machine: &Machine<'_>, from: u32, masks: &mut [u32])
    requires { from + length masks.old < 2 ^ 32 }
    ensures { AllMarked (meant machine.now) from masks.new }
{
    let divisor = machine.divisor();
    for k in 0..masks.len() {
        masks[k] = mask_at(machine, divisor, from + k as u32);
    }
}

// Marks the ticks of a window from `from` to `from` + `length`, its end included.
pub fn window_masks(machine: &Machine<'_>, from: u32, length: usize) -> [u32; WINDOW_MASKS]
    requires { InRange from (from + length) }
    ensures { WindowMarked (meant machine.now) from length result }
{
    let mut masks = [0; WINDOW_MASKS];
    mark_ticks(machine, from, &mut masks[..length + 1]);
    masks
}

// The mask of one tick, from the last action to the first. Every instant is a multiple of the
// divisor of the machine's periods, so that most ticks need no look at the actions.
fn mask_at(machine: &Machine<'_>, divisor: u32, t: u32) -> u32
    requires { divisor ≡ machine_divisor (meant machine.now) }
    ensures { Marks (meant machine.now) t result }
{
    if t % divisor != 0 {
        return 0;
    }
    let mut mask = 0;
    for j in (0..machine.actions()).rev() {
        mask = 2 * mask + may_bit(machine, j, t);
    }
    mask
}

// 1 where action j may be triggered at t, else 0.
fn may_bit(machine: &Machine<'_>, j: usize, t: u32) -> u32
    requires { j < count (meant machine.now) }
    ensures { result ≡ bit (may_trigger (meant machine.now) t j) }
{
    u32::from(machine.has_instant(j, t))
}

// The row after a walk over a tick at which the actions of the mask may be triggered.
pub fn tick(machine: &Machine<'_>, mask: u32, way: Way, old: &Row) -> Row
    requires { Ready (meant machine.now) mask old.now }
    ensures { Ticked way (meant machine.now) mask old.now result }
{
    let mut row = *old;
    for j in Marked(mask) {
        push(machine, j, way, old, &mut row);
    }
    row
}

// Raises the row at the state that action j leads to; `old` has the figures before the tick.
fn push(machine: &Machine<'_>, j: usize, way: Way, old: &Row, row: &mut Row)
    requires { Joins (meant machine.now) j old.now }
    ensures { row.new ≡ pushed way (meant machine.now) j old.now row.old }
{
    let action = machine.action(j);
    let (_, ahead) = way.ends(&action);
    row[ahead] = row[ahead].max(brings(&action, way, old));
}

// What action j of an entry's machine brings to the state that it leads to: rules 1 to 6 are enough for the entry, and a
// row may go on behind its figures.
pub fn brought(entry: &Entry<'_>, j: usize, way: Way, row: &[u32]) -> u32
    requires joins { Joins (entry_meant entry.now) j row.now }
    requires long { 16 ≤ length row.now }
    ensures { result ≡ way_brought way (entry_meant entry.now) j row.now }
{
    brings(&entry.action(j), way, row)
}

// What an action that has been read brings: the figure that it leaves, and its cost.
fn brings(action: &Action, way: Way, row: &[u32]) -> u32
    requires leaves { behind way action.now < length row.now }
    requires fits { figure row.now (behind way action.now) + action.now.time < 2 ^ 32 }
    ensures { result ≡ figure row.now (behind way action.now) + action.now.time }
{
    let (behind, _) = way.ends(action);
    row[behind] + action.time
}

// The largest figure of a row.
pub fn top(row: &Row, states: usize) -> u32
    requires { states ≤ 16 }
    ensures { result ≡ most states (figure row.now) }
{
    let mut top: u32 = 0;
    for &figure in &row[..states] {
        top = top.max(figure);
    }
    top
}

// The most that is due within `ticks` ticks of the last instant.
pub fn due_within(machine: &Machine<'_>, last: &LastInstant, ticks: u32) -> u32
    requires { Ready (meant machine.now) last.now.mask last.now.row }
    ensures { DueWithin (meant machine.now) last.now.mask last.now.row ticks result }
{
    let mut most = top(&last.row, machine.states());
    for j in Marked(last.mask) {
        most = due_or(machine, j, &last.row, ticks, most);
    }
    most
}

// `most`, or what action j brings, if that is more and due within `ticks` ticks.
fn due_or(machine: &Machine<'_>, j: usize, row: &Row, ticks: u32, most: u32) -> u32
    requires { Joins (meant machine.now) j row.now }
    ensures { result ≡ due_or (meant machine.now) j row.now ticks most }
{
    let action = machine.action(j);
    if ticks < action.deadline {
        return most;
    }
    most.max(brings(&action, Way::On, row))
}
