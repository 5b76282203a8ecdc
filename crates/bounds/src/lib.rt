// The bounds of a machine in a window: the request bound, the demand bound, and the request table.
// Definitions: specs/Bounds.antt and specs/Table.antt.
#![tactic(auto)]

ghost use Rattle.std.specs.Prelude.{◌≡◌, ◌<◌, length as list_length, IfOk, OnOk};
ghost use Rattle.model.specs.Machine.{machine_of};
ghost use Rattle.model.specs.Legal.{IsRequestBound, IsDemandBound};
ghost use Rattle.model.specs.Reckon.{request as reckoned_request, demand as reckoned_demand};
ghost use Rattle.reply.specs.Answer.{paper};
ghost use Rattle.reply.specs.Tabled.{paper as table_paper};
ghost use Rattle.reply.specs.Lent.{in_front};
ghost use Rattle.sheet.specs.Format.{decode};
ghost use Rattle.sheet.specs.Meant.{meant};
ghost use Rattle.bounds.specs.Bounds.{request_reply, demand_reply};
ghost use Rattle.bounds.specs.Table.{request_table, table_reply, table_words, HoldsBounds};
ghost use Rattle.bounds.specs.Inside.{IsFront};

use model::Way;
use reply::Reason;
use walk::{LastInstant, Row};
use window::MachineWindow;

// The request bound of [from, to) of a machine.
pub fn request(sheet: &[u8], machine: u32, from: u32, to: u32) -> Result<u32, Reason>
    ensures says { paper result ≡ request_reply sheet.now machine from to }
    ensures promises { IfOk result (IsRequestBound (machine_of (decode sheet.now) machine) from to) }
{
    let window = window::window_of(sheet, machine, from, u64::from(to))?;
    Ok(request_of(&window))
}

// The demand bound of [from, to] of a machine.
pub fn demand(sheet: &[u8], machine: u32, from: u32, to: u32) -> Result<u32, Reason>
    ensures says { paper result ≡ demand_reply sheet.now machine from to }
    ensures promises { IfOk result (IsDemandBound (machine_of (decode sheet.now) machine) from to) }
{
    let window = window::window_of(sheet, machine, from, u64::from(to))?;
    Ok(demand_of(&window))
}

// Writes the request bounds of [from, from + n) for n from 0 to `length`, a word each. Words beyond
// stay as they were; a refused call writes nothing.
#[tactic(auto, unfolding(crate::specs::Table::table_refusal))]
pub fn table(
    sheet: &[u8],
    machine: u32,
    from: u32,
    length: u32,
    words: &mut [u32],
) -> Result<(), Reason>
    ensures says { table_paper result ≡ table_reply sheet.now machine from length words.old }
    ensures writes { words.new ≡ table_words sheet.now machine from length words.old }
    ensures promises { OnOk result (HoldsBounds (machine_of (decode sheet.now) machine) from length words.new) }
{
    let window = window::window_of(sheet, machine, from, u64::from(from) + u64::from(length))?;
    if words.len() <= length as usize {
        return Err(Reason::ShortOutput);
    }
    fill(&window, words);
    Ok(())
}

// The request bound of a window.
pub fn request_of(window: &MachineWindow<'_>) -> u32
    ensures { result ≡ reckoned_request (meant window.now.machine) window.now.from window.now.length }
{
    walk::top(&walk_to(window).row, window.machine.states())
}

// The demand bound of a window, its end included.
pub fn demand_of(window: &MachineWindow<'_>) -> u32
    ensures { result ≡ reckoned_demand (meant window.now.machine) window.now.from window.now.length }
{
    let last = walk_to(window).last;
    walk::due_within(&window.machine, &last, window.length - last.ticks)
}

// How far a walk has come: the row, and the machine's last instant.
#[derive(Clone, Copy)]
struct Front {
    row: Row,
    last: LastInstant,
}

// Walks over the ticks of a window.
fn walk_to(window: &MachineWindow<'_>) -> Front
    ensures { IsFront (meant window.now.machine) window.now.from window.now.length result }
{
    let machine = &window.machine;
    let length = window.length as usize;
    let masks = walk::window_masks(machine, window.from, length);
    let mut row = [0; 16];
    let mut last = LastInstant {
        ticks: 0,
        mask: masks[0],
        row,
    };
    for (n, &mask) in masks[..length].iter().enumerate() {
        if mask != 0 {
            last = LastInstant {
                ticks: n as u32,
                mask,
                row,
            };
            row = walk::tick(machine, mask, Way::On, &row);
        }
    }
    Front { row, last }
}

// Writes the request bounds of the first n ticks of a window, for n from 0 to its length.
fn fill(window: &MachineWindow<'_>, words: &mut [u32])
    requires { window.now.length < list_length words.old }
    ensures { words.new
        ≡ in_front (request_table (meant window.now.machine) window.now.from window.now.length) words.old }
{
    let machine = &window.machine;
    let length = window.length as usize;
    let masks = walk::window_masks(machine, window.from, length);
    let mut row = [0; 16];
    for n in 0..length + 1 {
        words[n] = walk::top(&row, machine.states());
        row = walk::tick(machine, masks[n], Way::On, &row);
    }
}
