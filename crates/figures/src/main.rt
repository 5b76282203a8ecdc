// Runs document 01's bounds, tables, critical sequences and texts. Each line has what is asked and the reply; the file
// `stdout` beside src/ has what they must be. An action has a period T, a time C and a deadline D.
#![tactic(auto)]

mod example;
mod sequences;

use draft::Draft;
use example::Example;
use std::io;

fn pair_requests(rt: &impl Print) -> io::Result<()> {
    let pair = Example::new("PAIR", Draft::pair());
    let windows = [
        (1, 80, 101),
        (1, 80, 121),
        (1, 0, 1),
        (1, 0, 40),
        (1, 1, 40),
        (2, 5, 4),
        (4294967295, 0, 1),
        (1, 7, 3),
        (1, 1000000, 1000001),
        (1, 1000000, 1000000),
        (1, 0, 2048),
        (1, 0, 2049),
        (0, 0, 200),
    ];
    for window in windows {
        pair.request(rt, window)?;
    }
    let draft = Draft::pair().with_byte(67, 0x30);
    Example::new("PAIR with last byte 30,", draft).request(rt, (0, 0, 200))
}

fn state_requests(rt: &impl Print) -> io::Result<()> {
    let draft = Draft::new()
        .action(0, 1, 1, 1, 1)
        .action(0, 0, 2, 2, 1)
        .one_machine(2, 0, 2);
    Example::new("0 to 1 T1 C1 D1 and 0 to 0 T2 C2 D1,", draft).request(rt, (0, 1, 3))?;
    let draft = Draft::new()
        .action(1, 0, 2, 2, 1)
        .action(1, 1, 1, 2, 1)
        .one_machine(2, 0, 2);
    Example::new("1 to 0 T2 C2 D1 and 1 to 1 T1 C2 D1,", draft).request(rt, (0, 0, 2))
}

fn demands(rt: &impl Print) -> io::Result<()> {
    let pair = Example::new("PAIR", Draft::pair());
    for window in [(1, 0, 19), (1, 0, 20), (1, 1000000, 1000000), (1, 7, 3)] {
        pair.demand(rt, window)?;
    }
    let draft = Draft::new()
        .stay(2, 3, 1)
        .stay(2, 1, 2)
        .one_machine(1, 0, 2);
    Example::new("T2 C3 D1 and T2 C1 D2,", draft).demand(rt, (0, 0, 1))?;
    let draft = Draft::new().stay(4, 2, 1).one_machine(1, 0, 1);
    Example::new("T4 C2 D1,", draft).demand(rt, (0, 0, 1))?;
    let draft = Draft::new().stay(2, 1, 2).one_machine(1, 0, 1);
    Example::new("T2 C1 D2,", draft).demand(rt, (0, 0, 2))
}

fn tables(rt: &impl Print) -> io::Result<()> {
    let pair = Example::new("PAIR", Draft::pair());
    pair.table(rt, (1, 80, 21), &mut [7; 24])?;
    pair.table(rt, (1, 80, 21), &mut [7; 21])?;
    pair.table(rt, (2, 80, 21), &mut [7; 24])?;
    pair.table(rt, (1, 0, 1), &mut [7; 1])?;
    pair.table(rt, (1, 0, 2049), &mut [])?;
    pair.table(rt, (1, 4294967295, 1), &mut [7; 2])
}

fn fits(rt: &impl Print) -> io::Result<()> {
    let draft = Draft::new()
        .stay(6, 1, 1)
        .stay(4, 1, 1)
        .stay(4, 3, 4)
        .entry(1, 0, 2, 0)
        .entry(1, 0, 1, 16)
        .trailer(24, 2);
    Example::new("T6 C1 D1 and T4 C1 D1 beside T4 C3 D4", draft).fit(rt)?;
    Example::new("PAIR with time 15 in machine 0", Draft::pair_with(15, 20)).fit(rt)?;
    let draft = Draft::pair().with_byte(67, 0x30);
    Example::new("PAIR with last byte 30", draft).fit(rt)?;
    Example::new("2125 bytes, all zero", Draft::zeros(2125)).fit(rt)?;
    Example::new("PAIR", Draft::pair()).short_fit(rt)
}

fn main(rt: HostRuntime) -> io::Result<()> {
    pair_requests(&rt)?;
    state_requests(&rt)?;
    demands(&rt)?;
    tables(&rt)?;
    sequences::criticals(&rt)?;
    sequences::plains(&rt)?;
    fits(&rt)
}
