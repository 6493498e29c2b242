// The refusals of the candidate's inputs, 1 to 11, in table order.
ghost use Rattle.std.specs.Prelude.{length};
ghost use Rattle.field.specs.Refusal.{Checked};
ghost use Rattle.poly.specs.Lists.{WrongKey};
ghost use Rattle.poly.specs.Search.{Searched};
ghost use Rattle.divisor.specs.Candidate.{of_skeleton, of_points, of_case};

use field::{COORDINATES, Case, Fault, KeyBits, MOST_KEYS, MOST_POINT_NUMBERS, Residue};
use poly::key::Key;

// The place of the first key that is wrong, or the length.
fn first_wrong_key(skeleton: &[KeyBits]) -> usize
    ensures { Searched (WrongKey skeleton.now) (length skeleton.now) result }
{
    let mut before = Key::LIMIT;
    for (i, key) in skeleton.iter().enumerate() {
        if *key >= before {
            return i;
        }
        before = *key;
    }
    skeleton.len()
}

// The refusals 6 and 7.
fn check_skeleton(skeleton: &[KeyBits]) -> Result<(), Fault>
    ensures { Checked (of_skeleton skeleton.now) result }
{
    if skeleton.is_empty() {
        return Err(Fault::at(Fault::SKELETON_COUNT, 0));
    }
    if skeleton.len() > MOST_KEYS {
        return Err(Fault::at(Fault::SKELETON_COUNT, 0));
    }
    let place = first_wrong_key(skeleton);
    if place < skeleton.len() {
        return Err(Fault::at(Fault::SKELETON_KEY, place));
    }
    Ok(())
}

// The refusals 8 and 9.
fn check_points(p: Residue, points: &[Residue]) -> Result<(), Fault>
    ensures { Checked (of_points p points.now) result }
{
    if points.is_empty() {
        return Err(Fault::at(Fault::POINTS_COUNT, 0));
    }
    if points.len() > MOST_POINT_NUMBERS {
        return Err(Fault::at(Fault::POINTS_COUNT, 0));
    }
    if points.len() % COORDINATES != 0 {
        return Err(Fault::at(Fault::POINTS_COUNT, 0));
    }
    let place = poly::points::first_large(p, points);
    if place < points.len() {
        return Err(Fault::at(Fault::POINT_NUMBER, place));
    }
    Ok(())
}

// All of them; 10 and 11 by the lengths of the rooms that are lent.
pub(crate) fn check_call(case: &Case<'_>, output: usize, work: usize) -> Result<(), Fault>
    ensures { Checked (of_case case.now output work) result }
{
    poly::list::lists_fault(case.modulus, case.first, case.second)?;
    check_skeleton(case.skeleton)?;
    check_points(case.modulus, case.points)?;
    poly::rooms::rooms_fault(output, case.skeleton.len(), work)
}
