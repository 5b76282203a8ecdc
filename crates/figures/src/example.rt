// A sheet, and what the lines call it. Each call prints what is asked and the reply, and then the words that it lent.
use draft::{Draft, Refused};
use reply::Reason;
use std::fmt::Display;
use std::io;

// A machine, and the window from one instant to another.
pub(crate) type Window = (u32, u32, u32);

#[derive(Drop)]
pub(crate) struct Example<'a> {
    name: &'a str,
    draft: Draft,
}

impl<'a> Example<'a> {
    pub(crate) fn new(name: &'a str, draft: Draft) -> Example<'a> {
        Example { name, draft }
    }

    // This and the next two differ in a call and a word: a closure for the call needs more lines than it saves.
    pub(crate) fn request(&self, rt: &impl Print, (machine, from, to): Window) -> io::Result<()> {
        print!(rt;
            "request of {} machine {machine} [{from},{to}): ",
            self.name
        )?;
        let reply = saglubitan::request(self.draft.as_slice(), machine, from, to);
        print_reply(rt, reply)
    }

    pub(crate) fn demand(&self, rt: &impl Print, (machine, from, to): Window) -> io::Result<()> {
        print!(rt; "demand of {} machine {machine} [{from},{to}]: ", self.name)?;
        let reply = saglubitan::demand(self.draft.as_slice(), machine, from, to);
        print_reply(rt, reply)
    }

    pub(crate) fn plain(&self, rt: &impl Print, (machine, from, to): Window) -> io::Result<()> {
        print!(rt; "plain of {} machine {machine} [{from},{to}): ", self.name)?;
        let reply = saglubitan::plain(self.draft.as_slice(), machine, from, to);
        print_reply(rt, reply)
    }

    pub(crate) fn critical(
        &self,
        rt: &impl Print,
        (machine, from, to): Window,
        words: &mut [u32],
    ) -> io::Result<()> {
        print!(rt;
            "critical of {} machine {machine} [{from},{to}): ",
            self.name
        )?;
        let reply = saglubitan::critical(self.draft.as_slice(), machine, from, to, words);
        print_reply(rt, reply)?;
        print_words(rt, words)
    }

    pub(crate) fn table(
        &self,
        rt: &impl Print,
        (machine, from, length): (u32, u32, u32),
        words: &mut [u32],
    ) -> io::Result<()> {
        print!(rt;
            "table of {} machine {machine} from {from} length {length}: ",
            self.name
        )?;
        let reply = saglubitan::table(self.draft.as_slice(), machine, from, length, words);
        print_reply(rt, reply.map(|()| "filled"))?;
        print_words(rt, words)
    }

    pub(crate) fn fit(&self, rt: &impl Print) -> io::Result<()> {
        println!(rt; "fit of {}", self.name)?;
        let mut out = [7; 512];
        let printed = saglubitan::fit(self.draft.as_slice(), &mut out);
        let text = &out[..printed.length];
        rt.write_all(text)
    }

    // Too few bytes lent: the length of the text, and how many bytes are left as they were up to the first that is not.
    pub(crate) fn short_fit(&self, rt: &impl Print) -> io::Result<()> {
        let mut out = [7; 511];
        let printed = saglubitan::fit(self.draft.as_slice(), &mut out);
        let kept = out.iter().take_while(|byte| **byte == 7).count();
        println!(rt;
            "fit of {} in 511 bytes: {}, bytes kept: {kept}",
            self.name, printed.length
        )
    }
}

fn print_reply<D: Display + Drop>(rt: &impl Print, reply: Result<D, Reason>) -> io::Result<()> {
    match reply {
        Ok(value) => rt.println(value),
        Err(reason) => rt.println(Refused(reason)),
    }
}

fn print_words(rt: &impl Print, words: &[u32]) -> io::Result<()> {
    rt.print("words")?;
    for word in words {
        print!(rt; " {word}")?;
    }
    rt.println("")
}
