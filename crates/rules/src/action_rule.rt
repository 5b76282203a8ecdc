// Rules 7 and 8, which look at every action.
ghost use Rattle.std.specs.Prelude.{◌≡◌, ◌≤◌, ◌<◌};
ghost use Rattle.model.specs.Machine.{divisor as machine_divisor};
ghost use Rattle.reply.specs.Reply.{refusal, refusal_for};
ghost use Rattle.reply.specs.Inside.{refused_by};
ghost use Rattle.sheet.specs.Format.{machine_count};
ghost use Rattle.sheet.specs.Inside.{OffsetsKept};
ghost use Rattle.sheet.specs.Meant.{entry_meant};
ghost use Rattle.rules.specs.Rules.{machine_refusal, actions_refusal};
ghost use Rattle.rules.specs.Inside.{keeps, number_of};

use model::{Action, LONGEST_PERIOD, LONGEST_TIME};
use reply::Reason;
use sheet::{Entry, fields};

// Rule 7 asks each action to have its fields in range, and rule 8 a deadline that is at most the divisor of the
// machine's periods.
#[derive(Clone, Copy, Debug, PartialEq, Eq)]
pub(crate) enum ActionRule {
    Ranges,
    Deadlines,
}

impl ActionRule {
    // Looks at the actions of all machines.
    pub(crate) fn check(self, sheet: &[u8]) -> Result<(), Reason>
        requires { OffsetsKept sheet.now }
        ensures { refused_by result ≡ actions_refusal (keeps self) (number_of self) sheet.now }
    {
        for machine in 0..fields::machine_count(sheet) {
            self.check_machine(&Entry::read(sheet, machine))?;
        }
        Ok(())
    }

    // Looks at the actions of one machine.
    fn check_machine(self, entry: &Entry<'_>) -> Result<(), Reason>
        ensures { refused_by result
            ≡ machine_refusal (keeps self) (number_of self) entry.now.sheet.now entry.now.number }
    {
        let divisor = entry.divisor();
        for j in 0..entry.actions {
            if !self.allows(entry, divisor, entry.action(j)) {
                return Err(self.broken_at(entry.number as u32, j as u32));
            }
        }
        Ok(())
    }

    // Whether an action of a machine keeps the rule.
    fn allows(self, entry: &Entry<'_>, divisor: u32, action: Action) -> bool
        requires { divisor ≡ machine_divisor (entry_meant entry.now) }
        ensures { result ≡ keeps self (entry_meant entry.now) action }
    {
        match self {
            ActionRule::Ranges => {
                action.source < entry.states
                    && action.sink < entry.states
                    && (1..=LONGEST_PERIOD).contains(&action.period)
                    && (1..=LONGEST_TIME).contains(&action.time)
                    && 1 <= action.deadline
            }
            ActionRule::Deadlines => action.deadline <= divisor,
        }
    }

    // Why a sheet is refused whose action breaks the rule.
    fn broken_at(self, machine: u32, action: u32) -> Reason
        ensures { refusal_for result ≡ refusal (number_of self) machine action }
    {
        match self {
            ActionRule::Ranges => Reason::Action { machine, action },
            ActionRule::Deadlines => Reason::Deadline { machine, action },
        }
    }
}
