// The checks of points: their numbers, and how many there are.
ghost use Rattle.std.specs.Prelude.{length};
ghost use Rattle.field.specs.Refusal.{Checked};
ghost use Rattle.poly.specs.Lists.{WrongNumber};
ghost use Rattle.poly.specs.Search.{Searched};
ghost use Rattle.poly.specs.ImageCall.{of_point};

use field::{COORDINATES, Fault, Residue};

// The place of the first point number that is at least p, or the length.
pub fn first_large(p: Residue, numbers: &[Residue]) -> usize
    ensures { Searched (WrongNumber p numbers.now) (length numbers.now) result }
{
    for (i, &n) in numbers.iter().enumerate() {
        if n >= p {
            return i;
        }
    }
    numbers.len()
}

// The refusals 8 and 9, of one point.
pub(crate) fn check_point(p: Residue, point: &[Residue]) -> Result<(), Fault>
    ensures { Checked (of_point p point.now) result }
{
    if point.len() != COORDINATES {
        return Err(Fault::at(Fault::POINTS_COUNT, 0));
    }
    let place = first_large(p, point);
    if place < point.len() {
        return Err(Fault::at(Fault::POINT_NUMBER, place));
    }
    Ok(())
}
