// The critical sequence of a window: found by one pass back over the ticks, which lays rows of
// best figures, and one walk forward. Definitions: specs/Critical.antt.
#![tactic(auto)]

mod forward;

ghost use Rattle.std.specs.Prelude.{◌≡◌, IfOk};
ghost use Rattle.model.specs.Machine.{machine_of};
ghost use Rattle.model.specs.Critical.{critical};
ghost use Rattle.reply.specs.Answer.{paper};
ghost use Rattle.sheet.specs.Format.{decode};
ghost use Rattle.sheet.specs.Meant.{meant};
ghost use Rattle.critical.specs.Critical.{critical_reply, critical_words, HoldsCritical};
ghost use Rattle.critical.specs.Inside.{arrays_of};

use arrayvec::ArrayVec;
use model::LONGEST_WINDOW;
use reply::Reason;
use rows::MaskedWindow;
use walk::{Row, WINDOW_MASKS};
use window::MachineWindow;

// The pairs of the longest sequence: at most one for each tick.
pub const LONGEST_SEQUENCE: usize = LONGEST_WINDOW as usize;

// The words of the longest sequence: two for each pair.
pub const LONGEST_WORDS: usize = 2 * LONGEST_SEQUENCE;

// The critical sequence of a machine and the window from `from` to `to`: its number of pairs, and in
// `words` two words a pair, the action and the instant; words beyond stay as they were. Or the
// reason why not: 1 to 11, and 12 where the pairs have no room in `words`, of which then every word stays.
pub fn critical(
    sheet: &[u8],
    machine: u32,
    from: u32,
    to: u32,
    words: &mut [u32],
) -> Result<u32, Reason>
    ensures says { paper result ≡ critical_reply sheet.now machine from to words.old }
    ensures writes { words.new ≡ critical_words sheet.now machine from to words.old }
    ensures promises { IfOk result (HoldsCritical (machine_of (decode sheet.now) machine) from to words.new) }
{
    let window = window::window_of(sheet, machine, from, u64::from(to))?;
    let mut rows = [[0; 16]; WINDOW_MASKS];
    let pairs = sequence_of(&window, &mut rows);
    let found = pairs.as_flattened();
    let needed = found.len();
    if words.len() < needed {
        return Err(Reason::ShortOutput);
    }
    words[..needed].copy_from_slice(found);
    Ok(pairs.len() as u32)
}

// The pairs of a window's critical sequence, each an array of action and instant. What `rows` held is lost.
pub fn sequence_of(
    window: &MachineWindow<'_>,
    rows: &mut [Row; WINDOW_MASKS],
) -> ArrayVec<[u32; 2], LONGEST_SEQUENCE>
    ensures { result.items ≡ arrays_of (critical (meant window.now.machine) window.now.from window.now.length) }
{
    let length = window.length as usize;
    let masks = walk::window_masks(&window.machine, window.from, length);
    let masked = MaskedWindow {
        window: *window,
        masks: &masks[..length],
    };
    rows::lay_rows(&masked, rows);
    let mut pairs = ArrayVec::new();
    forward::trace(&masked, rows, &mut pairs);
    pairs
}
