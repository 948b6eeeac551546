// The switch: its number and counter, the last-committed stamp, the direct-reads sign, the dirty set of three stages of 16 slots, and the number of marks that count. Its numbers lie
// in an array that the caller lends: src/cells.rt reads and changes them there. Here is the switch as a value.
#![tactic(auto)]

ghost use Rattle.std.specs.Prelude.{◌≡◌};
ghost use Rattle.switch.specs.DirtySet.{completed, new_switch};
ghost use Rattle.switch.specs.Values.{switch_of, marked_switch};

pub mod cells;

use limits::{Number, Object, Stamp};

pub const SLOTS: usize = 48;

// Where each number lies: specs/Numbers.antt has the same places.
pub const NUMBER: usize = 0;

pub const COUNTER: usize = 1;

pub const COMMITTED: usize = 2;

pub const DIRECT: usize = 4;

pub const OBJECTS: usize = 5;

pub const STAMPS: usize = 53;

pub const MARKS: usize = 149;

pub const CELLS: usize = 150;

// The whole switch, slots included.
#[derive(Clone, Copy)]
pub struct Switch {
    pub cells: [u32; CELLS],
}

// The switch after an object was to be marked, and the stamp that the write got: (0,0) where it is dropped.
// By hand: the stamp (0,0) stands for none, and there is no Option, as `stamp_for` of specs/DirtySet.antt and the theorems about runs say of the write what this record holds.
#[derive(Clone, Copy)]
pub struct Marked {
    pub stamp: Stamp,
    pub state: Switch,
}

impl Switch {
    pub fn new(number: Number) -> Switch
        ensures { result ≡ switch_of (new_switch number) }
    {
        let mut cells = [0; CELLS];
        cells[NUMBER] = u32::from(number);
        Switch { cells }
    }

    // A write of the object gets the next stamp, and the object a mark with it.
    pub fn mark(self, o: Object) -> Marked
        ensures { result ≡ marked_switch self o }
    {
        let mut cells = self.cells;
        let stamp = cells::mark(&mut cells, o);
        let state = Switch { cells };
        Marked { stamp, state }
    }

    pub fn complete(self, o: Object, t: Stamp) -> Switch
        ensures { result ≡ switch_of (completed self.cells o t) }
    {
        let mut cells = self.cells;
        cells::complete(&mut cells, o, t);
        Switch { cells }
    }

    // The next switch has this number, and nothing of the present one.
    pub fn replace(self, number: Number) -> Switch
        ensures { result ≡ switch_of (new_switch number) }
    {
        Switch::new(number)
    }
}
