// What calls answer: what a call gives where nothing is refused, or the reason why it is refused; and questions.
// Definitions: specs/Reply.antt, Lent.antt and Printed.antt, and a file for each answer.
#![tactic(auto)]

ghost use Rattle.std.specs.Prelude.{◌≡◌};
ghost use Rattle.reply.specs.Reply.{refusal, refusal_for};

// Why a call is refused, and where. README's table has each in words.
#[derive(Clone, Copy, Debug, PartialEq, Eq)]
pub enum Reason {
    Length,
    LastFour,
    MachineCount,
    Trailer,
    Entry { machine: u32 },
    Offset { machine: u32 },
    Action { machine: u32, action: u32 },
    Deadline { machine: u32, action: u32 },
    Hyperperiod,
    UnknownMachine,
    Window,
    ShortOutput,
    ManyInstants,
}

// A refusal as it is printed: the number of the reply, and its place. The number is no enum, since `explain` promises a
// line for every number at every place.
#[derive(Clone, Copy, Debug, PartialEq, Eq)]
pub struct Refusal {
    pub number: u32,
    pub first: u32,
    pub second: u32,
}

impl From<Reason> for Refusal {
    ghost from_gives = { λ reason result. result ≡ refusal_for reason };

    fn from(reason: Reason) -> Refusal {
        match reason {
            Reason::Length => placeless(1),
            Reason::LastFour => placeless(2),
            Reason::MachineCount => placeless(3),
            Reason::Trailer => placeless(4),
            Reason::Entry { machine } => at_machine(5, machine),
            Reason::Offset { machine } => at_machine(6, machine),
            Reason::Action { machine, action } => at_action(7, machine, action),
            Reason::Deadline { machine, action } => at_action(8, machine, action),
            Reason::Hyperperiod => placeless(9),
            Reason::UnknownMachine => placeless(10),
            Reason::Window => placeless(11),
            Reason::ShortOutput => placeless(12),
            Reason::ManyInstants => placeless(14),
        }
    }
}

// A refusal without a place.
pub fn placeless(number: u32) -> Refusal
    ensures { result ≡ refusal number 0 0 }
{
    at_machine(number, 0)
}

fn at_machine(number: u32, machine: u32) -> Refusal
    ensures { result ≡ refusal number machine 0 }
{
    at_action(number, machine, 0)
}

fn at_action(number: u32, machine: u32, action: u32) -> Refusal
    ensures { result ≡ refusal number machine action }
{
    Refusal {
        number,
        first: machine,
        second: action,
    }
}

// What `check` gives for a sheet that it accepts.
#[derive(Clone, Copy, Debug, PartialEq, Eq)]
pub struct Accepted {
    pub machines: u32,
    pub hyperperiod: u32,
}

// A window that fails: machine, start, length, and the demand bound there.
#[derive(Clone, Copy, Debug, PartialEq, Eq)]
pub struct Window {
    pub machine: u32,
    pub start: u32,
    pub length: u32,
    pub demand: u32,
}

// What `judge` gives for a sheet that is accepted.
#[derive(Clone, Copy, Debug, PartialEq, Eq)]
pub enum Verdict {
    Fits,
    Late(Window),
    Open { machine: u32, start: u32 },
}

// What was printed into lent bytes: the length of the text, and the reason for the refusal that it prints, if it prints
// one. Where too little is lent the length is 0 and not none, as the clauses `size` of `fit` and `ask` say.
#[derive(Clone, Copy, Debug, PartialEq, Eq)]
pub struct Printed {
    pub length: usize,
    pub refused: Option<Reason>,
}

impl Printed {
    // Where too little is lent.
    pub const NOTHING: Printed = Printed {
        length: 0,
        refused: None,
    };
}

// What can be asked about a machine and a window.
#[derive(Clone, Copy, Debug, PartialEq, Eq)]
pub enum Kind {
    Request,
    Demand,
    Table,
    Critical,
    Plain,
}

// A question. For a table `to` is its length: one field for both, as a command line has one word for them.
#[derive(Clone, Copy, Debug, PartialEq, Eq)]
pub struct Question {
    pub kind: Kind,
    pub machine: u32,
    pub from: u32,
    pub to: u32,
}
