// Makes a stream of calls about sheets and writes what each gives, so that another program can compare
// every reply and every lent word. Standard input: how many calls, then each call (call.rt). Standard
// output: for each, the reply (replied.rt), and after a call that is lent words these words and the guards around them
// (words.rt). Numbers are words of 32 bits, little-endian. At a call that is none the program stops.
#![tactic(auto)]

mod call;
mod replied;
mod words;

use call::Call;
use std::io;
use std::io::{Read, Write};
use words::{GUARDS, guard, read_word, write_words};

fn main(rt: HostRuntime) {
    // nothing is left to be said where no call can be read or no reply can be written
    let _ = answer_calls(&mut rt.stdin(), &mut rt.stdout());
}

fn answer_calls<R: Read, W: Write>(input: &mut R, output: &mut W) -> io::Result<()> {
    // the room for a sheet, for the lent words with their guards, and for what is written of a call
    let mut sheet = [0; 4096];
    let mut words = [0; 4128];
    let mut bytes = [0; 16536];
    for _ in 0..read_word(input)? {
        let call = Call::read(input)?;
        let sheet = &mut sheet[..call.size];
        input.read_exact(sheet)?;
        let words = &mut words[..call.lent + 2 * GUARDS];
        let written = call.written(words.len());
        guard(&mut words[..written]);
        let reply = call.reply(sheet, &mut words[GUARDS..GUARDS + call.lent]);
        write_words(output, &reply, &words[..written], &mut bytes)?;
    }
    Ok(())
}
