// The check of a sheet: rules 1 to 9, in order. Definitions: specs/Rules.antt and Check.antt.
#![tactic(auto)]

mod action_rule;
mod rules;

ghost use Rattle.std.specs.Prelude.{◌≡◌, IfOk};
ghost use Rattle.reply.specs.Checked.{paper};
ghost use Rattle.reply.specs.Inside.{refused_by};
ghost use Rattle.rules.specs.Check.{refusal_of, check_reply};

use action_rule::ActionRule;
use reply::{Accepted, Reason};
use sheet::{Sheet, fields};

// Checks a sheet: accepted, with its number of machines and its hyperperiod, or refused under the first of rules 1 to 9
// that it breaks, with the first place at which it breaks it.
pub fn check(sheet: &[u8]) -> Result<Accepted, Reason>
    ensures { paper result ≡ check_reply sheet.now }
{
    let sheet = accept(sheet)?;
    Ok(Accepted {
        machines: sheet.machines as u32,
        hyperperiod: sheet.hyperperiod,
    })
}

// The sheet as one that is accepted, if it breaks none of rules 1 to 9.
#[tactic(auto, using(crate::proofs::Stages::stages))]
pub fn accept<'a>(bytes: &'a [u8]) -> Result<Sheet<'a>, Reason>
    ensures refused { refused_by result ≡ refusal_of bytes.now }
    ensures sheet { IfOk result (λ s. s.bytes.now ≡ bytes.now) }
{
    rules::trailer_rules(bytes)?;
    rules::entry_rule(bytes)?;
    rules::offset_rule(bytes)?;
    ActionRule::Ranges.check(bytes)?;
    ActionRule::Deadlines.check(bytes)?;
    let hyperperiod = rules::hyperperiod_of(bytes).ok_or(Reason::Hyperperiod)?;
    Ok(Sheet {
        bytes,
        machines: fields::machine_count(bytes),
        hyperperiod,
    })
}
