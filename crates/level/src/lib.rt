// The machines from 0 to the one that is judged, walked together tick by tick. Definitions: specs/Inside.antt.
#![tactic(auto)]

mod masked;

ghost use Rattle.std.specs.Prelude.{◌≡◌, ◌+◌, ◌%◌, ◌≤◌, ◌<◌};
ghost use Rattle.model.specs.Limits.{longest_window};
ghost use Rattle.model.specs.Machine.{machine_of};
ghost use Rattle.model.specs.Reckon.{demand};
ghost use Rattle.sheet.specs.Meant.{machine_meant};
ghost use Rattle.level.specs.Inside.{Standing, Moved, machines_of, begun};
ghost use Rattle.level.specs.Inside.{LevelAt, LevelStands, LevelMoved, LevelOnward};

pub use masked::MaskedSheet;
use model::Way;
use sheet::Sheet;
use walk::{LastInstant, Row};

// A machine in the walk: a figure a state, and the largest of them.
#[derive(Clone, Copy)]
pub struct Progress {
    pub row: Row,
    pub top: u32,
}

// Machines 0 to `machine` in the walk for that machine, so many ticks from a start, and the phase of the next tick in
// the hyperperiod: their progress, the requests above the machine added, its own, and its last instant.
#[derive(Clone, Copy)]
pub struct Level {
    pub machine: usize,
    pub start: u32,
    pub ticks: u32,
    pub phase: usize,
    pub progress: [Progress; 8],
    pub above: u32,
    pub own: u32,
    pub last: LastInstant,
}

impl Progress {
    // The progress after a tick at which the actions of the mask have an instant.
    fn moved(&self, sheet: &Sheet<'_>, machine: usize, mask: u32) -> Progress
        requires { (machine < sheet.now.machines) × Standing (machine_meant sheet.now machine) mask self.now }
        ensures { Moved (machine_meant sheet.now machine) mask self.now result }
    {
        if mask == 0 {
            return *self;
        }
        let machine = sheet.machine(machine);
        let row = walk::tick(&machine, mask, Way::On, &self.row);
        let top = walk::top(&row, machine.states());
        Progress { row, top }
    }
}

impl Level {
    // A machine's level before the first tick from a start.
    pub fn begun(masked: &MaskedSheet<'_>, machine: usize, start: u32) -> Self
        requires { (machine < masked.now.sheet.machines) × (start < masked.now.sheet.hyperperiod) }
        ensures value { result ≡ begun masked.now machine start }
        ensures stands { LevelAt masked.now machine start 0 result }
    {
        let row = [0; 16];
        let phase = start as usize;
        Level {
            machine,
            start,
            ticks: 0,
            phase,
            progress: [Progress { row, top: 0 }; 8],
            above: 0,
            own: 0,
            last: LastInstant {
                ticks: 0,
                mask: masked.masks[machine][phase],
                row,
            },
        }
    }

    // Goes on by a tick. Where the level stands is a clause and no ghost field, since it fails between a tick's writes.
    pub fn tick(&mut self, masked: &MaskedSheet<'_>)
        requires { LevelStands masked.now self.old × (self.old.ticks < longest_window) }
        ensures { LevelOnward masked.now self.old self.new }
    {
        if masked.lowest[self.phase] <= self.machine {
            self.walk(masked);
        }
        self.ticks += 1;
        self.phase = phase_after(self.phase, masked.sheet.hyperperiod as usize);
    }

    // Moves the machines on by a tick.
    fn walk(&mut self, masked: &MaskedSheet<'_>)
        requires { LevelStands masked.now self.old × (self.old.ticks < longest_window) }
        ensures { LevelMoved masked.now self.old self.new }
    {
        let (machine, phase) = (self.machine, self.phase);
        let mut above = 0;
        for j in 0..machine {
            let moved = self.progress[j].moved(&masked.sheet, j, masked.masks[j][phase]);
            self.progress[j] = moved;
            above += moved.top;
        }
        let mask = masked.masks[machine][phase];
        let before = self.progress[machine];
        let own = before.moved(&masked.sheet, machine, mask);
        self.progress[machine] = own;
        self.above = above;
        self.own = own.top;
        if mask != 0 {
            let row = before.row;
            self.last = LastInstant {
                ticks: self.ticks,
                mask,
                row,
            };
        }
    }

    // The demand bound of its machine from the start to where it stands.
    pub fn demand(&self, masked: &MaskedSheet<'_>) -> u32
        requires { LevelStands masked.now self.now }
        ensures { result ≡ demand (machine_of (machines_of masked.now) self.now.machine) self.now.start
            self.now.ticks }
    {
        walk::due_within(
            &masked.sheet.machine(self.machine),
            &self.last,
            self.ticks - self.last.ticks,
        )
    }
}

// The phase after a phase, in a circle of h.
fn phase_after(phase: usize, h: usize) -> usize
    requires { phase < h }
    ensures { result ≡ (phase + 1) % h }
{
    if phase + 1 == h { 0 } else { phase + 1 }
}
