// An accepted sheet, and the machines in it. A machine's action, cost and divisor are those of its entry, by which the
// rules read a sheet that is not accepted yet. That an action has the number j is a clause and no type: it is known at
// the call, and for one call.
ghost use Rattle.sheet.specs.Inside.{Accepted, Counted};

use crate::Entry;
use model::Action;

// An accepted sheet, with its number of machines and its hyperperiod.
#[derive(Clone, Copy)]
pub struct Sheet<'a> {
    pub bytes: &'a [u8],
    pub machines: usize,
    pub hyperperiod: u32,
    pub ghost counted: { Counted bytes.now machines hyperperiod },
}

// A machine of an accepted sheet.
#[derive(Clone, Copy)]
pub struct Machine<'a> {
    pub entry: Entry<'a>,
    pub ghost accepted: { Accepted entry.sheet.now },
}

impl<'a> Sheet<'a> {
    ghost use Rattle.std.specs.Prelude.{◌≡◌, ◌<◌};
    ghost use Rattle.sheet.specs.Meant.{machine_meant, meant};

    // The machine of a number.
    pub fn machine(&self, number: usize) -> Machine<'a>
        requires { number < self.now.machines }
        ensures bytes { result.entry.sheet.now ≡ self.now.bytes.now }
        ensures number { result.entry.number ≡ number }
        ensures meant { meant result ≡ machine_meant self.now number }
    {
        Machine {
            entry: Entry::read(self.bytes, number),
        }
    }
}

impl Machine<'_> {
    ghost use Rattle.std.specs.Prelude.{◌≡◌, ◌<◌};
    ghost use Rattle.model.specs.Machine.{count, action_of, divisor};
    ghost use Rattle.model.specs.Legal.{cost as legal_cost};
    ghost use Rattle.model.specs.Reckon.{is_instant};
    ghost use Rattle.sheet.specs.Meant.{meant};

    // How many states it has.
    pub fn states(&self) -> usize
        ensures { result ≡ (meant self.now).states }
    {
        self.entry.states
    }

    // And how many actions.
    pub fn actions(&self) -> usize
        ensures { result ≡ count (meant self.now) }
    {
        self.entry.actions
    }

    // Action j.
    pub fn action(&self, j: usize) -> Action
        requires { j < count (meant self.now) }
        ensures { result ≡ action_of (meant self.now) j }
    {
        self.entry.action(j)
    }

    // What a bound adds for action j.
    pub fn cost(&self, j: usize) -> u32
        requires { j < count (meant self.now) }
        ensures { result ≡ legal_cost (meant self.now) j }
    {
        self.entry.cost(j)
    }

    // Whether t is an instant of action j.
    pub fn has_instant(&self, j: usize, t: u32) -> bool
        requires { j < count (meant self.now) }
        ensures { result ≡ is_instant (meant self.now) j t }
    {
        t % self.action(j).period == 0
    }

    // The greatest common divisor of its periods.
    pub fn divisor(&self) -> u32
        ensures { result ≡ divisor (meant self.now) }
    {
        self.entry.divisor()
    }
}
