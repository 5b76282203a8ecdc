// A call: six words, which are its kind, machine, from, to, the number of words lent and the number of bytes of the
// sheet; then the sheet. For a table `to` is its length. Kinds: 0 check, 1 request, 2 demand, 3 table, 4 critical,
// 5 plain, 6 judge.
ghost use Rattle.std.specs.Prelude.{◌≤◌};

use crate::replied::{Reply, accepted, filled, judged, number, refused};
use crate::words::read_word;
use std::io;
use std::io::{ErrorKind, Read};

#[derive(Clone, Copy)]
pub(crate) enum CallKind {
    Check,
    Request,
    Demand,
    Table,
    Critical,
    Plain,
    Judge,
}

impl TryFrom<u32> for CallKind {
    type Error = io::Error;

    fn try_from(number: u32) -> io::Result<CallKind> {
        match number {
            0 => Ok(CallKind::Check),
            1 => Ok(CallKind::Request),
            2 => Ok(CallKind::Demand),
            3 => Ok(CallKind::Table),
            4 => Ok(CallKind::Critical),
            5 => Ok(CallKind::Plain),
            6 => Ok(CallKind::Judge),
            _ => Err(ErrorKind::InvalidData.into()),
        }
    }
}

#[derive(Clone, Copy)]
pub(crate) struct Call {
    kind: CallKind,
    machine: u32,
    from: u32,
    to: u32,
    pub(crate) lent: usize,
    pub(crate) size: usize,
    ghost has_room: { (lent ≤ 4112) × (size ≤ 4096) },
}

impl Call {
    // Reads the next call. It is none where no kind has the number, or more is lent or sent than there is room for.
    pub(crate) fn read<R: Read>(input: &mut R) -> io::Result<Call> {
        let mut head = [0; 24];
        input.read_exact(&mut head)?;
        let mut head = &head[..];
        let kind = CallKind::try_from(read_word(&mut head)?)?;
        let machine = read_word(&mut head)?;
        let from = read_word(&mut head)?;
        let to = read_word(&mut head)?;
        let lent = read_word(&mut head)? as usize;
        let size = read_word(&mut head)? as usize;
        if lent > 4112 || size > 4096 {
            return Err(ErrorKind::InvalidData.into());
        }
        Ok(Call {
            kind,
            machine,
            from,
            to,
            lent,
            size,
        })
    }

    // How many of so many words are written after the reply: all, where they are lent.
    pub(crate) fn written(&self, words: usize) -> usize
        ensures { result ≤ words }
    {
        match self.kind {
            CallKind::Table | CallKind::Critical => words,
            _ => 0,
        }
    }

    // Makes the call; a table or a critical sequence may write the words.
    pub(crate) fn reply(&self, sheet: &[u8], words: &mut [u32]) -> Reply {
        let Call {
            machine,
            from,
            to,
            ..
        } = *self;
        let reply = match self.kind {
            CallKind::Check => saglubitan::check(sheet).map(accepted),
            CallKind::Request => saglubitan::request(sheet, machine, from, to).map(number),
            CallKind::Demand => saglubitan::demand(sheet, machine, from, to).map(number),
            CallKind::Table => saglubitan::table(sheet, machine, from, to, words).map(
                |()| filled(),
            ),
            CallKind::Critical => saglubitan::critical(sheet, machine, from, to, words).map(number),
            CallKind::Plain => saglubitan::plain(sheet, machine, from, to).map(number),
            CallKind::Judge => saglubitan::judge(sheet).map(judged),
        };
        reply.unwrap_or_else(refused)
    }
}
