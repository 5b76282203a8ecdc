// Answers one question about a sheet from standard input. Four words of the command line name the question, the machine
// and the window; for words that ask nothing the usage is said on standard error, and no sheet is read. A word of over
// 64 characters is none.
#![tactic(auto)]

use arrayvec::ArrayVec;
use reply::{Question, Refusal};

fn main(rt: HostRuntime) {
    let asked = saglubitan::asked_by(
        // one more than the words of a question, so that more are seen to be too many
        terminal::word_count(&rt, 6),
        word(&rt, 1).as_slice(),
        word(&rt, 2).as_slice(),
        word(&rt, 3).as_slice(),
        word(&rt, 4).as_slice(),
    );
    match asked {
        Some(question) => answer(&rt, question),
        None => say_usage(&rt),
    }
}

fn word(rt: &HostRuntime, at: usize) -> ArrayVec<u8, 64> {
    let mut room = [0; 64];
    let length = terminal::word(rt, at, &mut room);
    let mut word = ArrayVec::from(room);
    word.truncate(length);
    word
}

fn say_usage(rt: &HostRuntime) {
    let mut errors = rt.stderr();
    terminal::say(
        &mut errors,
        b"usage: ask request|demand|critical|plain MACHINE START END < SHEET\n",
    );
    terminal::say(
        &mut errors,
        b"       ask table MACHINE START LENGTH < SHEET\n",
    );
}

fn answer(rt: &HostRuntime, question: Question) {
    let mut bytes = terminal::sheet_room();
    match terminal::read_sheet(&mut rt.stdin(), &mut bytes) {
        Ok(used) => print(rt, &bytes[..used], question),
        Err(_) => terminal::say(&mut rt.stderr(), b"ask: cannot read standard input\n"),
    }
}

// As in `fit` but for the call, its room and the program's name; what both share is `terminal`'s.
fn print(rt: &HostRuntime, sheet: &[u8], question: Question) {
    let mut out = [0; 65536];
    let printed = saglubitan::ask(sheet, question, &mut out);
    let text = &out[..printed.length];
    let failure = b"ask: cannot write standard output\n";
    terminal::print(&mut rt.stdout(), &mut rt.stderr(), text, failure);
    terminal::say_refusal(&mut rt.stderr(), b"ask", printed.refused.map(Refusal::from));
}
