// A window that may be asked about.
ghost use Rattle.std.specs.Prelude.{◌+◌};
ghost use Rattle.model.specs.Inside.{InRange};

use sheet::Machine;

// A window of a machine of an accepted sheet.
#[derive(Clone, Copy)]
pub struct MachineWindow<'a> {
    pub machine: Machine<'a>,
    pub from: u32,
    pub length: u32,
    pub ghost in_range: { InRange from (from + length) },
}
