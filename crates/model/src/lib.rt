// Limits of sheets and windows, in ticks, an action, and the way that a walk goes. All else here is definitions, in
// specs/, and theorems, in proofs/.
#![tactic(auto)]

ghost use Rattle.std.specs.Prelude.{◌≡◌};
ghost use Rattle.model.specs.Inside.{behind, ahead};

// A window is no longer. These five are those of specs/Limits.antt.
pub const LONGEST_WINDOW: u32 = 2048;

// And ends no later.
pub const LAST_TICK: u32 = 1000000;

// An action's period is no longer.
pub const LONGEST_PERIOD: u32 = 1024;

// Nor its execution time.
pub const LONGEST_TIME: u32 = 1024;

// Nor is H.
pub const LONGEST_HYPERPERIOD: u32 = 1024;

// An action, with its times in ticks.
#[derive(Clone, Copy, Debug, PartialEq, Eq)]
pub struct Action {
    pub source: usize,
    pub sink: usize,
    pub period: u32,
    pub time: u32,
    pub deadline: u32,
}

// A walk goes on from an action's source to its sink, or back.
#[derive(Clone, Copy, Debug, PartialEq, Eq)]
pub enum Way {
    On,
    Back,
}

impl Way {
    // The state of an action that a walk leaves, and the one that it comes to.
    pub fn ends(self, action: &Action) -> (usize, usize)
        ensures { (result.0 ≡ behind self action.now) × (result.1 ≡ ahead self action.now) }
    {
        match self {
            Way::On => (action.source, action.sink),
            Way::Back => (action.sink, action.source),
        }
    }
}
