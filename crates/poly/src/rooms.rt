// What is lent to be worked in: the output, and the work room, which is left cleared.
ghost use Rattle.std.specs.Prelude.{◌≡◌, min, length};
ghost use Rattle.field.specs.Refusal.{Checked};
ghost use Rattle.poly.specs.Room.{of_rooms, zeroed};

use crate::key::Key;
use field::{Fault, Residue};

// A cell for each key.
pub const CELLS: usize = Key::LIMIT as usize;

// The numbers of the work room: the cells of a remainder, and those of a quotient.
pub const WORK_ROOM: usize = 2 * CELLS;

// The refusals 10 and 11: of the rooms that are lent only the lengths matter, and how many terms the output needs.
pub fn rooms_fault(output: usize, needed: usize, work: usize) -> Result<(), Fault>
    ensures { Checked (of_rooms output needed work) result }
{
    if output < needed {
        return Err(Fault::at(Fault::OUTPUT_SHORT, 0));
    }
    if work < WORK_ROOM {
        return Err(Fault::at(Fault::WORK_SHORT, 0));
    }
    Ok(())
}

// The first `n` numbers set to 0, or all of them where there are fewer.
pub fn clear(n: usize, numbers: &mut [Residue])
    ensures { numbers.new ≡ zeroed (min n (length numbers.old)) numbers.old }
{
    let end = n.min(numbers.len());
    numbers[..end].fill(0);
}
