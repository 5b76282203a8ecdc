// What the programs that run vectors share: sheets written byte by byte, right or wrong, and the words for a refusal.
// Definitions: specs/Draft.antt and Refused.antt.
#![tactic(auto)]

ghost use Rattle.std.specs.Prelude.{◌≡◌, ◌*◌, ◌%◌, ◌^◌, ◌≤◌, min, [], ◌++◌, replicate, take, slice_set, Some};
ghost use Rattle.std.specs.Int.{w16, to_le_bytes};
ghost use Rattle.draft.specs.Refused.{refused_text};
ghost use Rattle.reply.specs.Reply.{refusal_for};

use reply::{Reason, Refusal};
use std::fmt;

// The bytes of a sheet so far: the first `used` of the room, or all of it. Bytes past the room are dropped: no vector is
// that long.
#[derive(Clone, Copy)]
pub struct Draft {
    pub bytes: [u8; 2200],
    pub used: usize,
}

impl Draft {
    ghost use Rattle.draft.specs.Draft.{written, ◌followed_by◌, ◌followed_by_fields◌, action, entry, trailer, pair};

    pub fn new() -> Draft
        ensures none { written result ≡ [] }
        ensures room { result.bytes ≡ replicate 2200 0 }
    {
        Draft::zeros(0)
    }

    pub fn zeros(length: usize) -> Draft
        ensures zeros { written result ≡ replicate (min length 2200) 0 }
        ensures room { result.bytes ≡ replicate 2200 0 }
    {
        Draft {
            bytes: [0; 2200],
            used: length.min(2200),
        }
    }

    pub fn as_slice(&self) -> &[u8]
        ensures { result.now ≡ written self.now }
    {
        &self.bytes[..self.used.min(self.bytes.len())]
    }

    pub fn bytes(self, more: &[u8]) -> Draft
        ensures { written result ≡ written self followed_by more.now }
    {
        let mut bytes = self.bytes;
        let from = self.used.min(bytes.len());
        if more.len() > bytes.len() - from {
            return self;
        }
        let used = from + more.len();
        bytes[from..used].copy_from_slice(more);
        Draft { bytes, used }
    }

    // Of a number that is longer than its field, here and below, the field has the low bytes.
    pub fn action(self, source: u32, sink: u32, period: u32, time: u32, deadline: u32) -> Draft
        ensures { written result ≡
            written self followed_by_fields
            action (source % 256) (sink % 256) (period % 65536) (time % 65536) (deadline % 65536) }
    {
        self.bytes(&[low_byte(source), low_byte(sink)])
            .bytes(&two_bytes(period))
            .bytes(&two_bytes(time))
            .bytes(&two_bytes(deadline))
    }

    // An action from state 0 to state 0.
    pub fn stay(self, period: u32, time: u32, deadline: u32) -> Draft
        ensures { written result ≡
            written self followed_by_fields action 0 0 (period % 65536) (time % 65536) (deadline % 65536) }
    {
        self.action(0, 0, period, time, deadline)
    }

    pub fn entry(self, states: u32, initial: u32, actions: u32, offset: u32) -> Draft
        ensures { written result ≡
            written self followed_by_fields entry (states % 256) (initial % 256) (actions % 256) offset }
    {
        self.bytes(&[low_byte(states), low_byte(initial), low_byte(actions), 0])
            .bytes(&offset.to_le_bytes())
    }

    pub fn trailer(self, offset: u32, machines: u32) -> Draft
        ensures { written result ≡ written self followed_by_fields trailer offset machines }
    {
        self.bytes(&offset.to_le_bytes())
            .bytes(&machines.to_le_bytes())
            .bytes(b"SFS1")
    }

    // The rest of a sheet of one machine, whose actions are written.
    pub fn one_machine(self, states: u32, initial: u32, actions: u32) -> Draft
        ensures { written result ≡
            written self followed_by_fields
            (entry (states % 256) (initial % 256) (actions % 256) 0 ++ trailer ((8 * actions) % 2 ^ 32) 1) }
    {
        self.entry(states, initial, actions, 0)
            .trailer(actions.wrapping_mul(8), 1)
    }

    // The rest of a sheet of two machines of one state and one action each, whose actions are written.
    pub fn two_machines(self) -> Draft
        ensures { written result ≡ written self followed_by_fields (entry 1 0 1 0 ++ entry 1 0 1 8 ++ trailer 16 2) }
    {
        self.entry(1, 0, 1, 0).entry(1, 0, 1, 8).trailer(16, 2)
    }

    // PAIR with another execution time in machine 0 and another deadline in machine 1's action 0.
    pub fn pair_with(time: u32, deadline: u32) -> Draft
        ensures { written result ≡ pair (time % 65536) (deadline % 65536) }
    {
        Draft::new()
            .stay(40, time, 40)
            .action(0, 1, 40, 5, deadline)
            .action(2, 0, 100, 6, 20)
            .action(1, 2, 40, 2, 20)
            .action(1, 2, 100, 3, 20)
            .entry(1, 0, 1, 0)
            .entry(3, 0, 4, 8)
            .trailer(40, 2)
    }

    pub fn pair() -> Draft
        ensures { written result ≡ pair 14 20 }
    {
        Draft::pair_with(14, 20)
    }

    // The room with another byte at `at`, also behind the draft's end.
    pub fn with_byte(self, at: usize, value: u32) -> Draft
        ensures byte { written result ≡ slice_set (written self) at (value % 256) }
        ensures room { result.bytes ≡ slice_set self.bytes at (value % 256) }
        ensures used { result.used ≡ self.used }
    {
        let mut bytes = self.bytes;
        if at < bytes.len() {
            bytes[at] = low_byte(value);
        }
        Draft {
            bytes,
            used: self.used,
        }
    }

    // The first `length` bytes of the room, also behind the draft's end.
    pub fn cut(self, length: usize) -> Draft
        ensures first { written result ≡ take length self.bytes }
        ensures shorter { length ≤ self.used → written result ≡ take length (written self) }
        ensures room { result.bytes ≡ self.bytes }
        ensures used { result.used ≡ length }
    {
        let bytes = self.bytes;
        Draft {
            bytes,
            used: length,
        }
    }
}

// The byte of a field for the number.
fn low_byte(value: u32) -> u8
    ensures { result ≡ value % 256 }
{
    (value % 256) as u8
}

// The two bytes of a field for the number.
fn two_bytes(value: u32) -> [u8; 2]
    ensures { result ≡ to_le_bytes w16 (value % 65536) }
{
    ((value % 65536) as u16).to_le_bytes()
}

// A refusal as a line has it.
#[derive(Clone, Copy)]
pub struct Refused(pub Reason);

impl fmt::Display for Refused {
    ghost output = { λ refused. Some (refused_text (refusal_for refused.0)) };

    fn fmt<W: fmt::Write>(&self, f: &mut fmt::Formatter<W>) -> fmt::Result {
        let Refusal {
            number,
            first,
            second,
        } = self.0.into();
        write!(f, "refused {number} {first} {second}")
    }
}
