// Rules 1 to 6, and H for rule 9. Each rule's function answers that it is kept, or the first place at which it is
// broken, in the order of specs/Rules.antt.
ghost use Rattle.std.specs.Prelude.{◌≡◌, ◌≤◌, ◌<◌, length};
ghost use Rattle.number.specs.Divide.{fold, lcm};
ghost use Rattle.model.specs.Limits.{longest_hyperperiod};
ghost use Rattle.model.specs.Machine.{periods, hyperperiod};
ghost use Rattle.model.specs.Sizes.{Between};
ghost use Rattle.reply.specs.Inside.{refused_by};
ghost use Rattle.sheet.specs.Format.{last_four, sfs1, decode};
ghost use Rattle.sheet.specs.Inside.{TrailerKept, EntriesKept, PeriodsKept};
ghost use Rattle.sheet.specs.Meant.{entry_meant};
ghost use Rattle.rules.specs.Rules.{same, trailer_in_range, entry_in_range, rule5, rule6};
ghost use Rattle.rules.specs.Inside.{trailer_rules, limited};

use model::LONGEST_HYPERPERIOD;
use reply::Reason;
use sheet::{Entry, fields};

// Rules 1 to 4: the length, the last four bytes, the machine count and the trailer's offset.
pub(crate) fn trailer_rules(sheet: &[u8]) -> Result<(), Reason>
    ensures { refused_by result ≡ trailer_rules sheet.now }
{
    if !(28..=2124).contains(&sheet.len()) {
        return Err(Reason::Length);
    }
    if !ends_in_sfs1(sheet) {
        return Err(Reason::LastFour);
    }
    if !(1..=8).contains(&fields::machine_count(sheet)) {
        return Err(Reason::MachineCount);
    }
    if !trailer_in_range(sheet) {
        return Err(Reason::Trailer);
    }
    Ok(())
}

// Whether the last four bytes are SFS1.
fn ends_in_sfs1(sheet: &[u8]) -> bool
    ensures { result ≡ same (last_four sheet.now) sfs1 }
{
    sheet.ends_with(b"SFS1")
}

// Whether the entries that the trailer counts stand between its offset and the trailer.
fn trailer_in_range(sheet: &[u8]) -> bool
    requires { 12 ≤ length sheet.now }
    ensures { result ≡ trailer_in_range sheet.now }
{
    let tail = 12 + fields::ENTRY_SIZE * fields::machine_count(sheet);
    tail <= sheet.len() && fields::trailer_offset(sheet) + tail == sheet.len()
}

// Rule 5: the entries.
pub(crate) fn entry_rule(sheet: &[u8]) -> Result<(), Reason>
    requires { TrailerKept sheet.now }
    ensures { refused_by result ≡ rule5 sheet.now }
{
    for k in 0..fields::machine_count(sheet) {
        if !entry_in_range(fields::entry_bytes(sheet, k)) {
            return Err(Reason::Entry { machine: k as u32 });
        }
    }
    Ok(())
}

// Whether an entry has every byte in range.
fn entry_in_range(entry: fields::EntryBytes) -> bool
    ensures { result ≡ entry_in_range entry }
{
    (1..=16).contains(&entry.states)
        && entry.initial < entry.states
        && (1..=32).contains(&entry.actions)
        && entry.zero_byte == 0
}

// Rule 6: each machine's actions begin where those before it end, and the last end at the entries.
pub(crate) fn offset_rule(sheet: &[u8]) -> Result<(), Reason>
    requires { EntriesKept sheet.now }
    ensures { refused_by result ≡ rule6 sheet.now }
{
    let machines = fields::machine_count(sheet);
    let mut begin = 0;
    for k in 0..machines {
        let entry = fields::entry_bytes(sheet, k);
        if entry.offset != begin {
            return Err(Reason::Offset { machine: k as u32 });
        }
        begin += fields::ACTION_SIZE * entry.actions;
    }
    if begin != fields::trailer_offset(sheet) {
        return Err(Reason::Offset {
            machine: machines as u32,
        });
    }
    Ok(())
}

// H, if it is no longer than the longest: a least common multiple never falls.
pub(crate) fn hyperperiod_of(sheet: &[u8]) -> Option<u32>
    requires { PeriodsKept sheet.now }
    ensures { result ≡ limited (hyperperiod (decode sheet.now)) }
{
    let mut h = 1;
    for k in 0..fields::machine_count(sheet) {
        h = multiple_of(&Entry::read(sheet, k), h)?;
    }
    Some(h)
}

// The least common multiple of h and a machine's periods, if it is no longer than the longest H.
fn multiple_of(entry: &Entry<'_>, h: u32) -> Option<u32>
    requires { PeriodsKept entry.now.sheet.now × Between 1 longest_hyperperiod h }
    ensures { result ≡ limited (fold lcm h (periods (entry_meant entry.now))) }
{
    let mut multiple = h;
    for j in 0..entry.actions {
        multiple = number::lcm_of(multiple, entry.action(j).period);
        if LONGEST_HYPERPERIOD < multiple {
            return None;
        }
    }
    Some(multiple)
}
