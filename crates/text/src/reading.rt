// What a word of digits says. Definitions: specs/Text.antt.
ghost use Rattle.std.specs.Prelude.{◌≡◌};
ghost use Rattle.text.specs.Text.{read_number, with_digit};

// Reads a word of decimal digits, at most 4,294,967,295. Not by `parse`, which takes a sign.
pub fn read_number(word: &[u8]) -> Option<u32>
    ensures { result ≡ read_number word.now }
{
    if word.is_empty() {
        return None;
    }
    let mut value = 0;
    for &byte in word {
        value = with_digit(value, byte)?;
    }
    Some(value)
}

// The number with one more decimal digit behind.
fn with_digit(number: u32, byte: u8) -> Option<u32>
    ensures { result ≡ with_digit number byte }
{
    let digit = char::from(byte).to_digit(10)?;
    number.checked_mul(10)?.checked_add(digit)
}
