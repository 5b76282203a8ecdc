// What the words of `ask`'s command line ask. Definitions: specs/Asks.antt.
#![tactic(auto)]

ghost use Rattle.std.specs.Prelude.{◌≡◌};
ghost use Rattle.ask_words.specs.Asks.{kind_of, asks};

use reply::{Kind, Question};
use text::read_number;

// Reads the name of a question.
fn kind_of(word: &[u8]) -> Option<Kind>
    ensures { result ≡ kind_of word.now }
{
    match word {
        b"request" => Some(Kind::Request),
        b"demand" => Some(Kind::Demand),
        b"table" => Some(Kind::Table),
        b"critical" => Some(Kind::Critical),
        b"plain" => Some(Kind::Plain),
        _ => None,
    }
}

// What the words of a command line ask: five of them with the program's own, of which these four are the name of a
// question and the three numbers of a machine and a window. A number beside the four and no slice of all, since std
// hands over one word at a time.
pub fn asked_by(
    words: usize,
    name: &[u8],
    machine: &[u8],
    from: &[u8],
    to: &[u8],
) -> Option<Question>
    ensures { result ≡ asks words name.now machine.now from.now to.now }
{
    if words != 5 {
        return None;
    }
    Some(Question {
        kind: kind_of(name)?,
        machine: read_number(machine)?,
        from: read_number(from)?,
        to: read_number(to)?,
    })
}
