// The text of `fit`. Definitions: specs/Fit.antt.
#![tactic(auto)]

ghost use Rattle.std.specs.Prelude.{◌≡◌, [], ◌+◌, ◌≤◌, ◌<◌, ◌++◌};
ghost use Rattle.std.specs.Counts.{IsPrefixLen};
ghost use Rattle.arrayvec.specs.ArrayString.{array_string_len};
ghost use Rattle.reply.specs.Printed.{printed_length, handed, printed_refusal, printed};
ghost use Rattle.sheet.specs.Format.{decode};
ghost use Rattle.rules.specs.Check.{refusal_of};
ghost use Rattle.verdict.specs.Inside.{judgement};
ghost use Rattle.fit_text.specs.Fit.{machine_line, verdict_line, accepted_text, fit_text};

use arrayvec::ArrayString;
use reply::{Printed, Verdict};
use sheet::Sheet;
use text::{put_line, put_reason};
use window::MachineWindow;

// The line of a machine.
fn put_machine(text: &mut ArrayString<512>, sheet: &Sheet<'_>, number: usize)
    requires known { number < sheet.now.machines }
    requires room { array_string_len text.old + 46 ≤ 512 }
    ensures says { text.new.bytes ≡ text.old.bytes ++ machine_line (decode sheet.now.bytes.now) number }
    ensures short { array_string_len text.new ≤ array_string_len text.old + 46 }
{
    let machine = sheet.machine(number);
    let states = machine.states() as u32;
    let actions = machine.actions() as u32;
    let bound = bounds::request_of(&MachineWindow {
        machine,
        from: 0,
        length: sheet.hyperperiod,
    });
    put_line(text, "M", &[number as u32, states, actions, bound]);
}

// The line of the verdict.
fn put_verdict(text: &mut ArrayString<512>, verdict: Verdict)
    requires { array_string_len text.old + 49 ≤ 512 }
    ensures { text.new.bytes ≡ text.old.bytes ++ verdict_line (judgement verdict) }
{
    match verdict {
        Verdict::Fits => put_line(text, "FITS", &[]),
        Verdict::Late(window) => put_line(
            text,
            "LATE",
            &[window.machine, window.start, window.length, window.demand],
        ),
        Verdict::Open { machine, start } => put_line(text, "OPEN", &[machine, start]),
    }
}

// The text of an accepted sheet.
#[tactic(auto, using(sheet::proofs::Decode::decode_count), unfolding(crate::specs::Fit::machine_lines))]
fn put_accepted(text: &mut ArrayString<512>, sheet: &Sheet<'_>)
    requires { text.old.bytes ≡ [] }
    ensures { text.new.bytes ≡ accepted_text (decode sheet.now.bytes.now) }
{
    put_line(text, "H", &[sheet.hyperperiod]);
    for number in 0..sheet.machines {
        put_machine(text, sheet, number);
    }
    put_verdict(text, verdict::verdict_of(sheet));
}

// Makes the text of `fit` at the start of the lent bytes and answers its length, and the reason for the refusal that it
// prints. Bytes past the text stay as they were; with fewer than 512 bytes lent nothing is written, and the length is
// 0.
pub fn fit(sheet: &[u8], out: &mut [u8]) -> Printed
    ensures size { result.length ≡ printed_length 512 (fit_text sheet.now) out.old }
    ensures hands { handed result.refused ≡ printed_refusal 512 (refusal_of sheet.now) out.old }
    ensures writes { out.new ≡ printed 512 (fit_text sheet.now) out.old }
    ensures within { IsPrefixLen result.length out.new }
{
    // before the sheet is judged, which takes long
    if out.len() < 512 {
        return Printed::NOTHING;
    }
    let mut text = ArrayString::new();
    let accepted = rules::accept(sheet);
    match &accepted {
        Ok(sheet) => put_accepted(&mut text, sheet),
        Err(reason) => put_reason(&mut text, *reason),
    }
    text::print(&text, accepted.err(), out)
}
