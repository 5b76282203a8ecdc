// Fields of a sheet, read where they stand: of the trailer, of a machine's entry, and of an action.
ghost use Rattle.std.specs.Prelude.{◌≡◌, ◌+◌, ◌*◌, ◌^◌, ◌≤◌, ◌<◌, length};
ghost use Rattle.sheet.specs.Format.{trailer_offset, machine_count, entry, action_size, action_at};
ghost use Rattle.sheet.specs.Inside.{TrailerKept};

use model::Action;

// How many bytes an action has.
pub const ACTION_SIZE: usize = 8;

// And a machine's entry.
pub const ENTRY_SIZE: usize = 8;

// What a machine's entry says: its states, its initial state, its actions, a byte that is zero, and the offset of its
// first action.
#[derive(Clone, Copy, Debug, PartialEq, Eq)]
pub struct EntryBytes {
    pub states: usize,
    pub initial: usize,
    pub actions: usize,
    pub zero_byte: usize,
    pub offset: usize,
}

// The number of machines.
pub fn machine_count(sheet: &[u8]) -> usize
    requires { 12 ≤ length sheet.now }
    ensures { (result ≡ machine_count sheet.now) × (result < 2 ^ 32) }
{
    number::read_le32(sheet, sheet.len() - 8) as usize
}

// The offset of the first machine entry, as the trailer has it.
pub fn trailer_offset(sheet: &[u8]) -> usize
    requires { 12 ≤ length sheet.now }
    ensures { (result ≡ trailer_offset sheet.now) × (result < 2 ^ 32) }
{
    number::read_le32(sheet, sheet.len() - 12) as usize
}

// A machine's entry.
pub fn entry_bytes(sheet: &[u8], machine: usize) -> EntryBytes
    requires { TrailerKept sheet.now × (machine < machine_count sheet.now) }
    ensures { result ≡ entry sheet.now machine }
{
    let at = trailer_offset(sheet) + ENTRY_SIZE * machine;
    EntryBytes {
        states: number::read_byte(sheet, at),
        initial: number::read_byte(sheet, at + 1),
        actions: number::read_byte(sheet, at + 2),
        zero_byte: number::read_byte(sheet, at + 3),
        offset: number::read_le32(sheet, at + 4) as usize,
    }
}

// The action that stands at `at`.
pub(crate) fn action_at(sheet: &[u8], at: usize) -> Action
    requires { at + action_size ≤ length sheet.now }
    ensures { result ≡ action_at sheet.now at }
{
    Action {
        source: number::read_byte(sheet, at),
        sink: number::read_byte(sheet, at + 1),
        period: number::read_le16(sheet, at + 2),
        time: number::read_le16(sheet, at + 4),
        deadline: number::read_le16(sheet, at + 6),
    }
}
