// The verdict: whether a sheet's machines fit, and if not, the first window that shows it.
// Definitions: specs/Judge.antt, over the model's specs/Verdict.antt and Run.antt.
#![tactic(auto)]

mod starts;

ghost use Rattle.std.specs.Prelude.{◌≡◌};
ghost use Rattle.model.specs.Run.{Safe};
ghost use Rattle.model.specs.Verdict.{verdict};
ghost use Rattle.reply.specs.Verdict.{paper};
ghost use Rattle.sheet.specs.Format.{decode};
ghost use Rattle.verdict.specs.Judge.{verdict_reply};
ghost use Rattle.verdict.specs.Inside.{judgement};

use level::MaskedSheet;
use reply::{Reason, Verdict};
use sheet::Sheet;

// Judges a sheet: refused under rules 1 to 9, or the verdict. Where it is Fits, no run of the sheet's machines is ever
// late.
pub fn judge(sheet: &[u8]) -> Result<Verdict, Reason>
    ensures says { paper result ≡ verdict_reply sheet.now }
    ensures promises { result ≡ Ok Verdict.Fits → Safe (decode sheet.now) }
{
    Ok(verdict_of(&rules::accept(sheet)?))
}

// The verdict of a sheet that is accepted: where no machine gives any, it fits.
pub fn verdict_of(sheet: &Sheet<'_>) -> Verdict
    ensures { judgement result ≡ verdict (decode sheet.now.bytes.now) }
{
    let masked = MaskedSheet::new(*sheet);
    starts::machines_judged(&masked).unwrap_or(Verdict::Fits)
}
