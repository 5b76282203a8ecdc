// Words of four bytes, and the guards around those that are lent.
ghost use Rattle.std.specs.Prelude.{◌≤◌, length};

use crate::replied::Reply;
use std::io;
use std::io::{Read, Write};

// How many words stand before the lent ones, and how many after them.
pub(crate) const GUARDS: usize = 8;

// Gives each word a value that tells its place, and that no call writes.
pub(crate) fn guard(words: &mut [u32])
    requires { length words.old ≤ 4128 }
{
    for (k, word) in words.iter_mut().enumerate() {
        *word = 4000000000 + k as u32;
    }
}

pub(crate) fn read_word<R: Read>(input: &mut R) -> io::Result<u32> {
    let mut bytes = [0; 4];
    input.read_exact(&mut bytes)?;
    Ok(u32::from_le_bytes(bytes))
}

// Writes a reply and the words after it in one piece, which has its room in `bytes`.
pub(crate) fn write_words<W: Write>(
    output: &mut W,
    reply: &Reply,
    words: &[u32],
    bytes: &mut [u8; 16536],
) -> io::Result<()>
    requires { length words.now ≤ 4128 }
{
    let (head, rest) = bytes.split_at_mut(24);
    put_words(reply, head);
    put_words(words, rest);
    output.write_all(&bytes[..24 + 4 * words.len()])?;
    output.flush()
}

// Puts words into four bytes each.
fn put_words(words: &[u32], bytes: &mut [u8]) {
    let (fours, _) = bytes.as_chunks_mut();
    for (four, word) in fours.iter_mut().zip(words) {
        *four = word.to_le_bytes();
    }
}
