// A reply: six words, which are its number, how many values it has, and four values, 0 where there are fewer. A proper
// result has number 0; the verdict Open has 13; a refusal has its own number, and its place for values.
ghost use Rattle.std.specs.Prelude.{◌≤◌, length};

use reply::{Accepted, Reason, Refusal, Verdict};

pub(crate) type Reply = [u32; 6];

pub(crate) fn accepted(accepted: Accepted) -> Reply {
    values(&[accepted.machines, accepted.hyperperiod])
}

pub(crate) fn number(number: u32) -> Reply {
    values(&[number])
}

pub(crate) fn filled() -> Reply {
    values(&[])
}

pub(crate) fn judged(verdict: Verdict) -> Reply {
    match verdict {
        Verdict::Fits => values(&[]),
        Verdict::Late(late) => values(&[late.machine, late.start, late.length, late.demand]),
        Verdict::Open { machine, start } => numbered(13, &[machine, start]),
    }
}

pub(crate) fn refused(reason: Reason) -> Reply {
    let refusal = Refusal::from(reason);
    numbered(refusal.number, &[refusal.first, refusal.second])
}

fn values(values: &[u32]) -> Reply
    requires { length values.now ≤ 4 }
{
    numbered(0, values)
}

fn numbered(number: u32, values: &[u32]) -> Reply
    requires { length values.now ≤ 4 }
{
    let mut reply = [number, values.len() as u32, 0, 0, 0, 0];
    reply[2..2 + values.len()].copy_from_slice(values);
    reply
}
