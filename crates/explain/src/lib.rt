// A refusal in words. Definitions: specs/Words.antt.
#![tactic(auto)]

ghost use Rattle.std.specs.Prelude.{◌≡◌, ◌+◌, ◌≤◌, ◌++◌, length};
ghost use Rattle.std.specs.Counts.{IsPrefixLen};
ghost use Rattle.arrayvec.specs.ArrayString.{array_string_len};
ghost use Rattle.reply.specs.Printed.{printed_length, printed};
ghost use Rattle.explain.specs.Words.{reason, place, refused_words, explanation};

use arrayvec::ArrayString;
use reply::Refusal;
use text::put_spaced;

// Why a call is refused, by the number.
fn reason(number: u32) -> &'static str
    ensures says { result.now ≡ reason number }
    ensures short { length result.now ≤ 100 }
{
    match number {
        1 => "the length is below 28 or above 2,124",
        2 => "the last four bytes are not SFS1",
        3 => "the machine count is 0 or above 8",
        4 => "the entries and the trailer exceed the length, or the trailer's offset is wrong",
        5 => "an entry has its states, initial state, actions or zero byte out of range",
        6 => {
            "an entry's offset is wrong or, if there is no such machine, the actions do not end at the entries"
        }
        7 => "an action has a state, period or time out of range, or deadline 0",
        8 => "a deadline is above the divisor of the machine's periods",
        9 => "the hyperperiod H is above 1,024",
        10 => "the machine asked for is not in the sheet",
        11 => "the window runs backwards, is longer than 2,048 or ends after 1,000,000",
        12 => "the lent output is too short",
        14 => "the window holds more than 6 instants, for the plain reckoner",
        _ => "",
    }
}

// Where: the machine for 5 to 8, and its action for 7 and 8.
#[tactic(auto, unfolding(crate::specs::Words::place))]
fn put_place(text: &mut ArrayString<256>, refusal: Refusal)
    requires { array_string_len text.old + 42 ≤ 256 }
    ensures says { text.new.bytes ≡ text.old.bytes ++ place refusal }
    ensures short { array_string_len text.new ≤ array_string_len text.old + 42 }
{
    if matches!(refusal.number, 5..=8) {
        text.push_str(", at machine");
        put_spaced(text, &[refusal.first]);
        if 7 <= refusal.number {
            text.push_str(", action");
            put_spaced(text, &[refusal.second]);
        }
    }
}

// The line of a refusal, but for the program's name.
fn refused_words(refusal: Refusal) -> ArrayString<256>
    ensures { result.bytes ≡ refused_words refusal }
{
    let mut text = ArrayString::new();
    text.push_str(": refused under");
    put_spaced(&mut text, &[refusal.number]);
    text.push_str(": ");
    text.push_str(reason(refusal.number));
    put_place(&mut text, refusal);
    text.push('\n');
    text
}

// Makes a line at the start of the lent bytes that says in words why and where the named program was refused, and
// answers its length. Bytes past the line stay as they were; with fewer than 256 bytes lent beside those of the name
// nothing is written, and the answer is 0 and not none, as `size` says.
pub fn explain(program: &[u8], refusal: Refusal, out: &mut [u8]) -> usize
    ensures size { result ≡ printed_length (length program.now + 256)
        (explanation program.now refusal) out.old }
    ensures writes { out.new ≡ printed (length program.now + 256)
        (explanation program.now refusal) out.old }
    ensures within { IsPrefixLen result out.new }
{
    let Some((front, rest)) = out.split_at_mut_checked(program.len()) else {
        return 0;
    };
    if rest.len() < 256 {
        return 0;
    }
    let text = refused_words(refusal);
    front.copy_from_slice(program);
    rest[..text.len()].copy_from_slice(text.as_str().as_bytes());
    program.len() + text.len()
}
