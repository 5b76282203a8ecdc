// Reads a sheet from standard input and prints its check, as document 01 has it: H, a line a machine, the verdict; or
// REFUSED with number and place, whose words go to standard error.
#![tactic(auto)]

use reply::Refusal;

fn main(rt: HostRuntime) {
    if 1 < terminal::word_count(&rt, 2) {
        terminal::say(&mut rt.stderr(), b"usage: fit < SHEET\n");
        return;
    }
    let mut bytes = terminal::sheet_room();
    match terminal::read_sheet(&mut rt.stdin(), &mut bytes) {
        Ok(used) => print(&rt, &bytes[..used]),
        Err(_) => terminal::say(&mut rt.stderr(), b"fit: cannot read standard input\n"),
    }
}

// As in `ask` but for the call, its room and the program's name; what both share is `terminal`'s.
fn print(rt: &HostRuntime, sheet: &[u8]) {
    let mut out = [0; 512];
    let printed = saglubitan::fit(sheet, &mut out);
    let text = &out[..printed.length];
    let failure = b"fit: cannot write standard output\n";
    terminal::print(&mut rt.stdout(), &mut rt.stderr(), text, failure);
    terminal::say_refusal(&mut rt.stderr(), b"fit", printed.refused.map(Refusal::from));
}
