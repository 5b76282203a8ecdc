// A machine's entry in a sheet that rules 1 to 6 let through, by which its actions are read.
ghost use Rattle.sheet.specs.Inside.{HasEntry};

use crate::fields;
use model::Action;

// The machine's number, its states and actions, and where its first action stands.
#[derive(Clone, Copy)]
pub struct Entry<'a> {
    pub sheet: &'a [u8],
    pub number: usize,
    pub states: usize,
    pub actions: usize,
    pub first: usize,
    pub ghost read: { HasEntry sheet.now number states actions first },
}

impl<'a> Entry<'a> {
    ghost use Rattle.std.specs.Prelude.{◌≡◌, ◌<◌};
    ghost use Rattle.model.specs.Machine.{count, action_of, divisor};
    ghost use Rattle.model.specs.Legal.{cost as legal_cost};
    ghost use Rattle.sheet.specs.Format.{machine_count};
    ghost use Rattle.sheet.specs.Inside.{OffsetsKept};
    ghost use Rattle.sheet.specs.Meant.{entry_meant};

    // Reads the entry of a machine.
    pub fn read(sheet: &'a [u8], number: usize) -> Self
        requires { OffsetsKept sheet.now × (number < machine_count sheet.now) }
        ensures { (result.sheet.now ≡ sheet.now) × (result.number ≡ number) }
    {
        let bytes = fields::entry_bytes(sheet, number);
        Entry {
            sheet,
            number,
            states: bytes.states,
            actions: bytes.actions,
            first: bytes.offset,
        }
    }

    // Action j.
    pub fn action(&self, j: usize) -> Action
        requires { j < count (entry_meant self.now) }
        ensures { result ≡ action_of (entry_meant self.now) j }
    {
        fields::action_at(self.sheet, self.first + fields::ACTION_SIZE * j)
    }

    // What a bound adds for action j.
    pub fn cost(&self, j: usize) -> u32
        requires { j < count (entry_meant self.now) }
        ensures { result ≡ legal_cost (entry_meant self.now) j }
    {
        self.action(j).time
    }

    // The greatest common divisor of the machine's periods.
    pub fn divisor(&self) -> u32
        ensures { result ≡ divisor (entry_meant self.now) }
    {
        let mut divisor = 0;
        for j in 0..self.actions {
            divisor = number::gcd_of(divisor, self.action(j).period);
        }
        divisor
    }
}
