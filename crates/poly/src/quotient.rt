// The quotient service: one list over another, exactly. The quotient's terms are written first in the lent output.
ghost use Rattle.std.specs.Prelude.{◌++◌};
ghost use Rattle.field.specs.Refusal.{Passes, Checked, StandsFor};
ghost use Rattle.poly.specs.Keys.{keys};
ghost use Rattle.poly.specs.Lists.{of_lists};
ghost use Rattle.poly.specs.Room.{of_rooms};
ghost use Rattle.poly.specs.QuotientCall.{quotient_call, quotient_result, refused_quotient, found_quotient, quotient_table, Quotient};
ghost use Rattle.poly.specs.Division.WorkRoomModel.{CanGather, Gathered};

use crate::rooms;
use crate::rooms::{CELLS, WORK_ROOM};
use field::{Fault, KeyBits, Residue, Term};

// The terms of the cells that are not 0, the highest key first, written first in the output; how many there are.
fn gather(cells: &[Residue], out: &mut [Term]) -> usize
    requires { CanGather cells.now out.old }
    ensures { Gathered cells.now out.old out.new result }
{
    let mut n: usize = 0;
    for k in (0..cells.len() as KeyBits).rev() {
        let c = cells[k as usize];
        if c != 0 {
            out[n] = crate::key::term(k, c);
            n += 1;
        }
    }
    n
}

// The refusals of the inputs, 1 to 5, 10 and 11; of the two rooms only the lengths matter.
fn check_call(
    p: Residue,
    first: &[Term],
    second: &[Term],
    output: usize,
    work: usize,
) -> Result<(), Fault>
    ensures { Checked (of_lists p first.now second.now ++ of_rooms output keys work) result }
{
    crate::list::lists_fault(p, first, second)?;
    rooms::rooms_fault(output, CELLS, work)
}

// The quotient of inputs that pass, or 15. The work room is left cleared.
fn exact(
    p: Residue,
    first: &[Term],
    second: &[Term],
    out: &mut [Term],
    work: &mut [Residue],
) -> Result<usize, Fault>
    requires { Passes (quotient_table (quotient_call p first.now second.now out.old work.old)) }
    ensures { StandsFor refused_quotient found_quotient
        (λ r. Quotient (quotient_call p first.now second.now out.old work.old) (quotient_result r out.new work.new)) result }
{
    rooms::clear(WORK_ROOM, work);
    // One division has at most a step for each key, so this ceiling is never reached.
    match crate::division::divide(p, first, second, CELLS, work) {
        Err(_) => {
            rooms::clear(WORK_ROOM, work);
            Err(Fault::at(Fault::DOES_NOT_DIVIDE, 0))
        }
        Ok(_) => {
            let terms = gather(&work[CELLS..WORK_ROOM], out);
            rooms::clear(WORK_ROOM, work);
            Ok(terms)
        }
    }
}

// First over second: how many terms the quotient has, or a refusal.
pub fn quotient(
    p: Residue,
    first: &[Term],
    second: &[Term],
    out: &mut [Term],
    work: &mut [Residue],
) -> Result<usize, Fault>
    ensures { StandsFor refused_quotient found_quotient
        (λ r. Quotient (quotient_call p first.now second.now out.old work.old) (quotient_result r out.new work.new)) result }
{
    check_call(p, first, second, out.len(), work.len())?;
    exact(p, first, second, out, work)
}
