// The plain reckoner: the request bound of one window, reckoned with no table. Each way to a state
// asks it anew, so the work grows with the actions to the power of the instants; windows hold at
// most 6 instants of the machine. Definitions: specs/Plain.antt.
#![tactic(auto)]

mod instant;
mod reckon;

ghost use Rattle.std.specs.Prelude.{◌≡◌, IfOk};
ghost use Rattle.model.specs.Machine.{machine_of};
ghost use Rattle.model.specs.Legal.{IsRequestBound};
ghost use Rattle.reply.specs.Answer.{paper};
ghost use Rattle.sheet.specs.Format.{decode};
ghost use Rattle.plain.specs.Plain.{plain_reply};

use reply::Reason;

// The request bound of [from, to) of a machine; 14 where the window holds more than 6 instants.
#[tactic(auto, unfolding(crate::specs::Plain::plain_refusal))]
pub fn plain(sheet: &[u8], machine: u32, from: u32, to: u32) -> Result<u32, Reason>
    ensures says { paper result ≡ plain_reply sheet.now machine from to }
    ensures promises { IfOk result (IsRequestBound (machine_of (decode sheet.now) machine) from to) }
{
    let window = window::window_of(sheet, machine, from, u64::from(to))?;
    if 6 < instant::instants_in(&window) {
        return Err(Reason::ManyInstants);
    }
    Ok(reckon::machine_asks(&window))
}
