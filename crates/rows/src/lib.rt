// The pass back over the ticks: for each tick of the window a row of figures, one a state, with the
// largest total from the state on. Definitions: specs/Inside.antt.
#![tactic(auto)]

ghost use Rattle.std.specs.Prelude.{◌≡◌, length};
ghost use Rattle.sheet.specs.Meant.{meant};
ghost use Rattle.walk.specs.Inside.{AllMarked};
ghost use Rattle.rows.specs.Inside.{Rows};

use model::Way;
use walk::{Row, WINDOW_MASKS};
use window::MachineWindow;

// A window of a machine, with a mask for each of its ticks.
#[derive(Clone, Copy)]
pub struct MaskedWindow<'a> {
    pub window: MachineWindow<'a>,
    pub masks: &'a [u32],
    pub ghost marked: { AllMarked (meant window.machine) window.from masks.now },
    pub ghost each: { length masks.now ≡ window.length },
}

// Lays a row for each of the window's ticks, and for its end.
pub fn lay_rows(masked: &MaskedWindow<'_>, rows: &mut [Row; WINDOW_MASKS])
    ensures { Rows (meant masked.now.window.machine) masked.now.window.from masked.now.window.length 0 rows.new }
{
    rows[masked.masks.len()] = [0; 16];
    for k in (0..masked.masks.len()).rev() {
        rows[k] = walk::tick(
            &masked.window.machine,
            masked.masks[k],
            Way::Back,
            &rows[k + 1],
        );
    }
}
