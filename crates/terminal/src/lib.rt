// The standard streams of the programs, and the words of their command lines. No contract can say what is read or
// written; the gate runs it.
#![tactic(auto)]

ghost use Rattle.std.specs.Prelude.{◌≡◌, ◌≤◌, length, IfOk};
ghost use Rattle.std.specs.Counts.{IsPrefixLen};

use reply::Refusal;
use std::env::FillError;
use std::io;
use std::io::{Read, Write};
use std::rt::Env;

// The room for a sheet, which has at most 2,124 bytes, and for one byte more, so that a longer input is seen to be too
// long.
pub fn sheet_room() -> [u8; 2125]
    ensures { 2125 ≡ length result }
{
    [0; 2125]
}

// Reads the input to the start of the lent bytes, until it ends or they are full, and returns how many bytes came. A
// `while`, since it goes by the bytes that came, and std reads to the end only into a `Vec`, which is heap; a number
// beside lent bytes, as `read` has it.
pub fn read_sheet<R: Read>(input: &mut R, bytes: &mut [u8]) -> io::Result<usize>
    ensures { IfOk result (λ used. IsPrefixLen used bytes.new) }
{
    let mut used = 0;
    while used < bytes.len() {
        let more = input.read(&mut bytes[used..])?;
        if more == 0 {
            break;
        }
        used += more;
    }
    Ok(used)
}

// Says a line where errors are said. Nothing is left to be said to where that fails.
pub fn say<E: Write>(errors: &mut E, line: &[u8]) {
    let _ = write_whole(errors, line);
}

// Prints a text, or says the line that is given for a failure.
pub fn print<W: Write, E: Write>(output: &mut W, errors: &mut E, text: &[u8], failure: &[u8]) {
    if write_whole(output, text).is_err() {
        say(errors, failure);
    }
}

// Writes a text, and whatever the writer keeps back.
fn write_whole<W: Write>(output: &mut W, text: &[u8]) -> io::Result<()> {
    output.write_all(text)?;
    output.flush()
}

// Says in words why the named program was refused, if it was.
pub fn say_refusal<E: Write>(errors: &mut E, program: &[u8], refusal: Option<Refusal>) {
    if let Some(refusal) = refusal {
        let mut line = [0; 512];
        let length = saglubitan::explain(program, refusal, &mut line);
        say(errors, &line[..length]);
    }
}

// Puts a word of the command line at the start of the lent bytes, and returns its length: 0 where there is no such word
// or where it is longer than they are, since an empty word asks nothing and no caller tells these apart. Word 0 is the
// program's own.
pub fn word(words: &impl Env, at: usize, bytes: &mut [u8]) -> usize
    ensures { IsPrefixLen result bytes.new }
{
    words.arg(at, bytes).unwrap_or(0)
}

// Whether the command line has a word there.
fn has_word(words: &impl Env, at: usize) -> bool {
    !matches!(words.arg(at, &mut []), Err(FillError::NotPresent))
}

// How many words the command line has, with the program's own, up to `most`.
pub fn word_count(words: &impl Env, most: usize) -> usize
    ensures { result ≤ most }
{
    (0..most).take_while(|at| has_word(words, *at)).count()
}
