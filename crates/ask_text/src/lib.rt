// The text of the answer to one question. Definitions: specs/Ask.antt.
#![tactic(auto)]

ghost use Rattle.std.specs.Prelude.{◌≡◌, [], ◌+◌, ◌*◌, ◌≤◌, ◌++◌, length, OnOk, OnErr};
ghost use Rattle.std.specs.Counts.{IsPrefixLen};
ghost use Rattle.arrayvec.specs.ArrayString.{array_string_len};
ghost use Rattle.reply.specs.Printed.{printed_length, handed, printed_refusal, printed};
ghost use Rattle.reply.specs.Inside.{refused_by};
ghost use Rattle.ask_text.specs.Ask.{number_lines, ask_text, ask_refusal};
ghost use Rattle.ask_text.specs.Inside.{array_lines};

use arrayvec::ArrayString;
use critical::LONGEST_WORDS;
use reply::{Kind, Printed, Question, Reason};
use text::{put_number_line, put_reason};

// Numbers, one a line.
fn put_numbers(text: &mut ArrayString<65536>, numbers: &[u32])
    requires { array_string_len text.old + 11 * length numbers.now ≤ 65536 }
    ensures { text.new.bytes ≡ text.old.bytes ++ number_lines numbers.now }
{
    for &number in numbers {
        put_number_line(text, number, &[]);
    }
}

// Pairs, one a line.
fn put_pairs(text: &mut ArrayString<65536>, pairs: &[[u32; 2]])
    requires { array_string_len text.old + 22 * length pairs.now ≤ 65536 }
    ensures { text.new.bytes ≡ text.old.bytes ++ array_lines pairs.now }
{
    for &[action, instant] in pairs {
        put_number_line(text, action, &[instant]);
    }
}

// The answer to a question; nothing where it is refused.
#[tactic(auto, using(crate::proofs::Replies::refusals))]
fn put_answer(text: &mut ArrayString<65536>, sheet: &[u8], question: Question) -> Result<(), Reason>
    requires { text.old.bytes ≡ [] }
    ensures refused { refused_by result ≡ ask_refusal sheet.now question }
    ensures answered { OnOk result (text.new.bytes ≡ ask_text sheet.now question) }
    ensures nothing { OnErr result (text.new.bytes ≡ []) }
{
    let Question {
        kind,
        machine,
        from,
        to,
    } = question;
    let mut words = [0; LONGEST_WORDS];
    match kind {
        Kind::Request => put_number_line(text, bounds::request(sheet, machine, from, to)?, &[]),
        Kind::Demand => put_number_line(text, bounds::demand(sheet, machine, from, to)?, &[]),
        Kind::Plain => put_number_line(text, plain::plain(sheet, machine, from, to)?, &[]),
        Kind::Table => {
            bounds::table(sheet, machine, from, to, &mut words)?;
            put_numbers(text, &words[..=to as usize]);
        }
        Kind::Critical => {
            let number = critical::critical(sheet, machine, from, to, &mut words)?;
            put_number_line(text, number, &[]);
            let (pairs, _) = words.as_chunks();
            put_pairs(text, &pairs[..number as usize]);
        }
    }
    Ok(())
}

// Makes the text of `ask` for a question at the start of the lent bytes and answers its length, and the reason for the
// refusal that it prints. Bytes past the text stay as they were; with fewer than 65,536 bytes lent nothing is written,
// and the length is 0.
pub fn ask(sheet: &[u8], question: Question, out: &mut [u8]) -> Printed
    ensures size { result.length ≡ printed_length 65536 (ask_text sheet.now question) out.old }
    ensures hands { handed result.refused ≡ printed_refusal 65536 (ask_refusal sheet.now question) out.old }
    ensures writes { out.new ≡ printed 65536 (ask_text sheet.now question) out.old }
    ensures within { IsPrefixLen result.length out.new }
{
    // before the question is answered, which takes long
    if out.len() < 65536 {
        return Printed::NOTHING;
    }
    let mut text = ArrayString::new();
    let refused = put_answer(&mut text, sheet, question).err();
    if let Some(reason) = refused {
        put_reason(&mut text, reason);
    }
    text::print(&text, refused, out)
}
