// Critical sequences, and the plain reckoner.
use crate::example::Example;
use draft::Draft;
use std::io;

pub(crate) fn criticals(rt: &impl Print) -> io::Result<()> {
    pair_criticals(rt)?;
    tied_criticals(rt)?;
    single_criticals(rt)
}

fn pair_criticals(rt: &impl Print) -> io::Result<()> {
    let pair = Example::new("PAIR", Draft::pair());
    pair.critical(rt, (1, 0, 101), &mut [9; 10])?;
    pair.critical(rt, (1, 80, 101), &mut [9; 6])?;
    pair.critical(rt, (1, 80, 101), &mut [9; 3])?;
    pair.critical(rt, (1, 1, 40), &mut [])?;
    pair.critical(rt, (2, 0, 2049), &mut [9; 2])
}

// Ties: the first pair that differs decides, by its instant, then by its action.
fn tied_criticals(rt: &impl Print) -> io::Result<()> {
    let draft = Draft::new()
        .action(1, 1, 2, 3, 1)
        .action(1, 0, 1, 3, 1)
        .one_machine(2, 0, 2);
    let tied = Example::new("1 to 1 T2 C3 D1 and 1 to 0 T1 C3 D1,", draft);
    tied.critical(rt, (0, 1, 3), &mut [9; 4])?;
    let draft = Draft::new()
        .action(1, 1, 2, 1, 1)
        .action(0, 0, 3, 1, 1)
        .one_machine(2, 0, 2);
    let tied = Example::new("1 to 1 T2 C1 D1 and 0 to 0 T3 C1 D1,", draft);
    tied.critical(rt, (0, 0, 1), &mut [9; 4])?;
    let draft = Draft::new()
        .action(1, 1, 1, 1, 1)
        .action(1, 0, 2, 2, 1)
        .one_machine(2, 0, 2);
    let tied = Example::new("1 to 1 T1 C1 D1 and 1 to 0 T2 C2 D1,", draft);
    tied.critical(rt, (0, 0, 2), &mut [9; 4])
}

fn single_criticals(rt: &impl Print) -> io::Result<()> {
    let draft = Draft::new().action(1, 0, 1, 3, 1).one_machine(2, 0, 1);
    Example::new("1 to 0 T1 C3 D1,", draft).critical(rt, (0, 0, 2), &mut [9; 4])?;
    let draft = Draft::new().action(0, 1, 1, 1, 1).one_machine(2, 0, 1);
    let forth = Example::new("0 to 1 T1 C1 D1,", draft);
    forth.critical(rt, (0, 0, 3), &mut [9; 8])?;
    forth.critical(rt, (0, 0, 3), &mut [9; 2])
}

pub(crate) fn plains(rt: &impl Print) -> io::Result<()> {
    let pair = Example::new("PAIR", Draft::pair());
    pair.plain(rt, (1, 0, 101))?;
    pair.plain(rt, (1, 0, 41))?;
    let draft = Draft::new().stay(1, 1, 1).one_machine(1, 0, 1);
    let alone = Example::new("T1 C1 D1,", draft);
    alone.plain(rt, (0, 0, 6))?;
    alone.plain(rt, (0, 0, 7))?;
    let draft = Draft::new().stay(1, 1, 1).stay(8, 1, 1).two_machines();
    Example::new("T1 C1 D1 beside T8 C1 D1,", draft).plain(rt, (1, 0, 8))?;
    pair.plain(rt, (0, 0, 2049))?;
    pair.plain(rt, (2, 0, 2049))?;
    let draft = Draft::new()
        .action(0, 1, 2, 1, 1)
        .action(1, 2, 2, 1, 1)
        .one_machine(3, 0, 2);
    Example::new("0 to 1 T2 C1 D1 and 1 to 2 T2 C1 D1,", draft).plain(rt, (0, 0, 1))
}
