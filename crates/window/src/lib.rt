// A question about a machine and a window: what may be asked. Definitions: specs/Window.antt.
#![tactic(auto)]

mod machine_window;

ghost use Rattle.std.specs.Prelude.{◌≡◌, IfOk};
ghost use Rattle.reply.specs.Inside.{refused_by};
ghost use Rattle.window.specs.Window.{question_refusal, window_in_range};
ghost use Rattle.window.specs.Inside.{IsWindowOf};

pub use machine_window::MachineWindow;
use model::{LAST_TICK, LONGEST_WINDOW};
use reply::Reason;

// The window from `from` to `to` of a machine, or why a question about it is refused: 1 to 9, then 10 and 11. The four
// arguments stand apart, since public calls are given them so.
#[tactic(auto, using(crate::proofs::Replies::questions))]
pub fn window_of<'a>(
    sheet: &'a [u8],
    machine: u32,
    from: u32,
    to: u64,
) -> Result<MachineWindow<'a>, Reason>
    ensures refused { refused_by result ≡ question_refusal sheet.now machine from to }
    ensures window { IfOk result (IsWindowOf sheet.now machine from to) }
{
    let sheet = rules::accept(sheet)?;
    if sheet.machines <= machine as usize {
        return Err(Reason::UnknownMachine);
    }
    if !in_range(from, to) {
        return Err(Reason::Window);
    }
    Ok(MachineWindow {
        machine: sheet.machine(machine as usize),
        from,
        length: (to - u64::from(from)) as u32,
    })
}

// Whether a window is one that may be asked about.
fn in_range(from: u32, to: u64) -> bool
    ensures { result ≡ window_in_range from to }
{
    let from = u64::from(from);
    from <= to && to <= from + u64::from(LONGEST_WINDOW) && to <= u64::from(LAST_TICK)
}
