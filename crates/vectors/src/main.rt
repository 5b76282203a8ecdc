// Runs document 01's further numbers and the wrong answers that the contracts rule out. Each line has
// what is tried and the reply; the file `stdout` beside src/ has what they must be.
#![tactic(auto)]

use draft::{Draft, Refused};
use std::io;

// What is tried, and what `check` replies.
fn check(rt: &impl Print, what: &str, draft: Draft) -> io::Result<()> {
    match saglubitan::check(draft.as_slice()) {
        Ok(accepted) => {
            println!(rt;
                "{what}: accepted {} {}",
                accepted.machines, accepted.hyperperiod
            )
        }
        Err(reason) => println!(rt; "{what}: {}", Refused(reason)),
    }
}

fn pairs(rt: &impl Print) -> io::Result<()> {
    check(rt, "PAIR", Draft::pair())?;
    check(
        rt,
        "machine 1's action 0 with a deadline of 21",
        Draft::pair_with(14, 21),
    )?;
    check(rt, "last byte 30", Draft::pair().with_byte(67, 0x30))?;
    check(
        rt,
        "machine 0's zero byte 1",
        Draft::pair().with_byte(43, 1),
    )?;
    check(
        rt,
        "machine count 20000000 in hexadecimal",
        Draft::pair().cut(56).trailer(40, 0x20000000),
    )?;
    check(
        rt,
        "machine count 4294967295",
        Draft::pair().cut(56).trailer(40, 4294967295),
    )?;
    check(
        rt,
        "trailer's offset 4294967292",
        Draft::pair().cut(56).trailer(4294967292, 2),
    )
}

// Two machines of one action each, their entries still to come.
fn two_turns() -> Draft {
    Draft::new().stay(2, 1, 1).stay(2, 1, 1)
}

fn orders(rt: &impl Print) -> io::Result<()> {
    check(
        rt,
        "rule 7 at machine 1, rule 8 at machine 0",
        Draft::new().stay(2, 1, 3).stay(2, 0, 1).two_machines(),
    )?;
    check(
        rt,
        "rule 5 at machine 1, rule 6 at machine 0",
        two_turns()
            .entry(1, 0, 1, 9)
            .entry(0, 0, 1, 8)
            .trailer(16, 2),
    )?;
    check(
        rt,
        "rule 6 at machine 0 and at the end",
        two_turns()
            .entry(1, 0, 2, 1)
            .entry(1, 0, 1, 8)
            .trailer(16, 2),
    )?;
    check(
        rt,
        "rule 6 at the end alone",
        two_turns()
            .entry(1, 0, 1, 0)
            .entry(1, 0, 2, 8)
            .trailer(16, 2),
    )?;
    check(
        rt,
        "rule 8 at two actions of machine 1",
        Draft::new()
            .stay(2, 1, 2)
            .stay(2, 1, 3)
            .stay(2, 1, 4)
            .entry(1, 0, 1, 0)
            .entry(1, 0, 2, 8)
            .trailer(24, 2),
    )
}

fn divisors(rt: &impl Print) -> io::Result<()> {
    check(
        rt,
        "periods 4 and 6 in two machines",
        Draft::new().stay(4, 1, 4).stay(6, 1, 6).two_machines(),
    )?;
    check(
        rt,
        "periods 4 and 6 in one machine, deadline 4 first",
        Draft::new()
            .stay(4, 1, 4)
            .stay(6, 1, 2)
            .one_machine(1, 0, 2),
    )?;
    check(
        rt,
        "periods 4 and 6 in one machine, deadlines 2",
        Draft::new()
            .stay(4, 1, 2)
            .stay(6, 1, 2)
            .one_machine(1, 0, 2),
    )
}

fn hyperperiods(rt: &impl Print) -> io::Result<()> {
    check(
        rt,
        "periods 32 and 64",
        Draft::new().stay(32, 1, 1).stay(64, 1, 1).two_machines(),
    )?;
    check(
        rt,
        "period 1024 alone",
        Draft::new().stay(1024, 1, 1024).one_machine(1, 0, 1),
    )?;
    check(
        rt,
        "periods 1024 and 3 in two machines",
        Draft::new().stay(1024, 1, 1).stay(3, 1, 1).two_machines(),
    )?;
    check(
        rt,
        "periods 1024 and 3 in one machine",
        Draft::new()
            .stay(1024, 1, 1)
            .stay(3, 1, 1)
            .one_machine(1, 0, 2),
    )?;
    check(
        rt,
        "periods 1023 and 1024",
        Draft::new()
            .stay(1023, 1, 1)
            .stay(1024, 1, 1)
            .two_machines(),
    )
}

// An action from state 0, its machine still to come.
fn leading_to(sink: u32) -> Draft {
    Draft::new().action(0, sink, 2, 1, 1)
}

fn states(rt: &impl Print) -> io::Result<()> {
    check(rt, "states 0", leading_to(0).one_machine(0, 0, 1))?;
    check(rt, "states 16", leading_to(15).one_machine(16, 15, 1))?;
    check(rt, "states 17", leading_to(0).one_machine(17, 0, 1))?;
    check(
        rt,
        "initial state at the number of states",
        leading_to(0).one_machine(2, 2, 1),
    )?;
    check(
        rt,
        "sink at the number of states",
        leading_to(1).one_machine(1, 0, 1),
    )?;
    check(
        rt,
        "source at the number of states",
        Draft::new().action(3, 0, 2, 1, 1).one_machine(3, 0, 1),
    )
}

// One machine of one state and one action.
fn alone(period: u32, time: u32, deadline: u32) -> Draft {
    Draft::new()
        .stay(period, time, deadline)
        .one_machine(1, 0, 1)
}

fn times(rt: &impl Print) -> io::Result<()> {
    check(rt, "period 0", alone(0, 1, 1))?;
    check(rt, "period 1", alone(1, 1, 1))?;
    check(rt, "period 1025", alone(1025, 1, 1))?;
    check(rt, "execution time 0", alone(2, 0, 1))?;
    check(rt, "execution time 1024", alone(2, 1024, 1))?;
    check(rt, "execution time 1025", alone(2, 1025, 1))?;
    check(rt, "deadline 0", alone(2, 1, 0))?;
    check(rt, "deadline at the divisor", alone(2, 1, 2))?;
    check(rt, "deadline above the divisor", alone(2, 1, 3))?;
    check(
        rt,
        "period 0 and deadline 0 in machine 1",
        Draft::new().stay(2, 1, 1).stay(0, 1, 0).two_machines(),
    )
}

// The draft, then a sheet of so many machines of one state and so many actions each.
fn wide(mut draft: Draft, machines: u8, actions: u8) -> Draft {
    for _ in 0..machines {
        for _ in 0..actions {
            draft = draft.stay(1, 1, 1);
        }
    }
    let size = 8 * u32::from(actions);
    for machine in 0..machines {
        draft = draft.entry(1, 0, u32::from(actions), size * u32::from(machine));
    }
    let machines = u32::from(machines);
    draft.trailer(size * machines, machines)
}

fn sizes(rt: &impl Print) -> io::Result<()> {
    check(
        rt,
        "no machine",
        Draft::new().stay(1, 1, 1).stay(1, 1, 1).trailer(16, 0),
    )?;
    check(rt, "8 machines", wide(Draft::new(), 8, 1))?;
    check(rt, "9 machines", wide(Draft::new(), 9, 1))?;
    check(
        rt,
        "no action",
        Draft::new().stay(1, 1, 1).entry(1, 0, 0, 0).trailer(8, 1),
    )?;
    check(rt, "32 actions", wide(Draft::new(), 1, 32))?;
    check(rt, "33 actions", wide(Draft::new(), 1, 33))?;
    check(rt, "8 machines of 32 actions", wide(Draft::new(), 8, 32))
}

fn lengths(rt: &impl Print) -> io::Result<()> {
    check(rt, "length 0", Draft::new())?;
    check(rt, "length 1", Draft::zeros(1))?;
    check(rt, "length 27", alone(1, 1, 1).cut(27))?;
    check(rt, "length 28", alone(1, 1, 1))?;
    check(rt, "length 28, all zero", Draft::zeros(28))?;
    check(
        rt,
        "length 28, 8 machines at offset 0",
        Draft::zeros(16).trailer(0, 8),
    )?;
    check(rt, "length 2124, all zero", Draft::zeros(2124))?;
    check(rt, "length 2125, all zero", Draft::zeros(2125))?;
    check(
        rt,
        "one byte before 8 machines of 32 actions",
        wide(Draft::zeros(1), 8, 32),
    )?;
    check(rt, "one byte after PAIR", Draft::pair().bytes(b"1"))?;
    check(
        rt,
        "PAIR cut in its last machine entry",
        Draft::pair().cut(55),
    )
}

fn main(rt: HostRuntime) -> io::Result<()> {
    pairs(&rt)?;
    orders(&rt)?;
    divisors(&rt)?;
    hyperperiods(&rt)?;
    states(&rt)?;
    times(&rt)?;
    sizes(&rt)?;
    lengths(&rt)
}
