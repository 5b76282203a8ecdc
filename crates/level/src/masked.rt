// An accepted sheet with the masks of its machines over one hyperperiod.
ghost use Rattle.std.specs.Prelude.{◌≡◌, ◌≤◌, ◌<◌, length};
ghost use Rattle.model.specs.Limits.{longest_hyperperiod};
ghost use Rattle.sheet.specs.Meant.{meant};
ghost use Rattle.level.specs.Masked.{MachineMasked, Masked, Idle, Lowest};

use model::LONGEST_HYPERPERIOD;
use sheet::{Machine, Sheet};

// A mask for each tick of the longest hyperperiod.
const HYPERPERIOD_MASKS: usize = LONGEST_HYPERPERIOD as usize;

// Word t marks the tick t of a machine.
type Masks = [u32; HYPERPERIOD_MASKS];

// An accepted sheet with the masks of its machines, and at word t of `lowest` the lowest machine with an instant at t,
// or the number of machines: a tick asks only whether it is at most its own, which an option would take apart first.
#[derive(Drop)]
pub struct MaskedSheet<'a> {
    pub sheet: Sheet<'a>,
    pub masks: [Masks; 8],
    pub lowest: [usize; HYPERPERIOD_MASKS],
    pub ghost marked: { Masked sheet.bytes.now masks },
    pub ghost lowered: { Lowest sheet.hyperperiod masks lowest },
}

impl<'a> MaskedSheet<'a> {
    // The sheet with its masks.
    pub fn new(sheet: Sheet<'a>) -> Self
        ensures { result.sheet.bytes.now ≡ sheet.entry.bytes.now }
    {
        let mut masks = [[0; HYPERPERIOD_MASKS]; 8];
        mark_machines(&sheet, &mut masks);
        let lowest = lowest_of(&masks, sheet.machines, sheet.hyperperiod as usize);
        MaskedSheet {
            sheet,
            masks,
            lowest,
        }
    }
}

// Marks the machines of a sheet.
fn mark_machines(sheet: &Sheet<'_>, masks: &mut [Masks; 8])
    ensures { Masked sheet.now.bytes.now masks.new }
{
    for j in 0..sheet.machines {
        mark_machine(&sheet.machine(j), sheet.hyperperiod as usize, &mut masks[j]);
    }
}

// And one machine, at the ticks below h.
fn mark_machine(machine: &Machine<'_>, h: usize, masks: &mut Masks)
    requires { h ≤ longest_hyperperiod }
    ensures { MachineMasked (meant machine.now) h masks.new }
{
    walk::mark_ticks(machine, 0, &mut masks[..h]);
}

// The lowest machine with an instant at each tick below h.
fn lowest_of(masks: &[Masks; 8], machines: usize, h: usize) -> [usize; HYPERPERIOD_MASKS]
    requires { (machines ≤ 8) × (h ≤ longest_hyperperiod) }
    ensures { Lowest h masks.now result }
{
    let mut lowest = [0; HYPERPERIOD_MASKS];
    for t in 0..h {
        lowest[t] = lowest_at(&masks[..machines], t);
    }
    lowest
}

// The lowest machine with an instant at t, or the number of machines.
fn lowest_at(masks: &[Masks], t: usize) -> usize
    requires { (length masks.now ≤ 8) × (t < longest_hyperperiod) }
    ensures { (result ≤ length masks.now) × Idle masks.now t result }
{
    masks
        .iter()
        .position(|machine| machine[t] != 0)
        .unwrap_or(masks.len())
}
