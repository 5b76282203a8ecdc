// Text that grows piece by piece: each function adds its piece at the end, and `print` copies the text into lent bytes.
// Not by `write!`, which promises its text only where it succeeds; how much room is left falls with each piece, and so
// is a clause.
// Definitions: specs/Text.antt, and Printed.antt of `reply`.
#![tactic(auto)]

mod reading;

ghost use Rattle.std.specs.Prelude.{◌≡◌, ◌+◌, ◌*◌, ◌≤◌, ◌++◌, length};
ghost use Rattle.std.specs.Counts.{IsPrefixLen};
ghost use Rattle.arrayvec.specs.ArrayString.{array_string_len};
ghost use Rattle.reply.specs.Printed.{handed, printed_length, printed_refusal, printed};
ghost use Rattle.reply.specs.Reply.{refusal_for};
ghost use Rattle.text.specs.Text.{spaced, line, number_line, refused_line};

use arrayvec::ArrayString;
use itoa::Buffer;
pub use reading::read_number;
use reply::{Printed, Reason, Refusal};

// Numbers, each after a space.
pub fn put_spaced<const CAP: usize>(text: &mut ArrayString<CAP>, numbers: &[u32])
    requires { array_string_len text.old + 11 * length numbers.now ≤ CAP }
    ensures says { text.new.bytes ≡ text.old.bytes ++ spaced numbers.now }
    ensures short { array_string_len text.new ≤ array_string_len text.old + 11 * length numbers.now }
{
    for &number in numbers {
        text.push(' ');
        text.push_str(Buffer::new().format(number));
    }
}

// A word and numbers, as a line of their own.
pub fn put_line<const CAP: usize>(text: &mut ArrayString<CAP>, word: &str, numbers: &[u32])
    requires { array_string_len text.old + (length word.now + (11 * length numbers.now + 1)) ≤ CAP }
    ensures says { text.new.bytes ≡ text.old.bytes ++ line word.now numbers.now }
    ensures short { array_string_len text.new
        ≤ array_string_len text.old + (length word.now + (11 * length numbers.now + 1)) }
{
    text.push_str(word);
    put_spaced(text, numbers);
    text.push('\n');
}

// Numbers, at least one, as a line of their own.
pub fn put_number_line<const CAP: usize>(text: &mut ArrayString<CAP>, first: u32, others: &[u32])
    requires { array_string_len text.old + (11 * length others.now + 11) ≤ CAP }
    ensures says { text.new.bytes ≡ text.old.bytes ++ number_line first others.now }
    ensures short { array_string_len text.new
        ≤ array_string_len text.old + (11 * length others.now + 11) }
{
    put_line(text, Buffer::new().format(first), others);
}

// REFUSED with number and place.
pub fn put_refused<const CAP: usize>(text: &mut ArrayString<CAP>, refusal: Refusal)
    requires { array_string_len text.old + 41 ≤ CAP }
    ensures { text.new.bytes ≡ text.old.bytes ++ refused_line refusal }
{
    let numbers = [refusal.number, refusal.first, refusal.second];
    put_line(text, "REFUSED", &numbers);
}

// The refusal for a reason.
pub fn put_reason<const CAP: usize>(text: &mut ArrayString<CAP>, reason: Reason)
    requires { array_string_len text.old + 41 ≤ CAP }
    ensures { text.new.bytes ≡ text.old.bytes ++ refused_line (refusal_for reason) }
{
    put_refused(text, Refusal::from(reason));
}

// Prints a text into the lent bytes, and hands back the reason for the refusal that it prints, if it prints one. With
// fewer bytes lent than a text can have nothing is printed.
pub fn print<const CAP: usize>(
    text: &ArrayString<CAP>,
    refused: Option<Reason>,
    out: &mut [u8],
) -> Printed
    ensures size { result.length ≡ printed_length CAP text.now.bytes out.old }
    ensures hands { handed result.refused ≡ printed_refusal CAP (handed refused) out.old }
    ensures writes { out.new ≡ printed CAP text.now.bytes out.old }
    ensures within { IsPrefixLen result.length out.new }
{
    let bytes = text.as_str().as_bytes();
    if out.len() < CAP {
        return Printed::NOTHING;
    }
    out[..bytes.len()].copy_from_slice(bytes);
    Printed {
        length: bytes.len(),
        refused,
    }
}
