// The images of the points in the work room: eight numbers for each, the first point's first.
ghost use Rattle.std.specs.Prelude.{◌≡◌, ◌/◌, length};
ghost use Rattle.divisor.specs.Points.Model.{LookReady, Looks, StoreReady};
ghost use Rattle.divisor.specs.Points.PartsModel.{stored};

use crate::sorting::Sizes;
use field::{COORDINATES, Case, MOST_POINTS, Residue};
use poly::{Eight, POWERS};

// Eight numbers into the work room, from a place on.
fn store(coefficients: Eight, at: usize, work: &mut [Residue])
    requires { StoreReady at work.old }
    ensures { work.new ≡ stored 8 coefficients at work.old }
{
    work[at..at + POWERS].copy_from_slice(&coefficients);
}

// The image at each point into the work room, and the sizes. The points are gone over by an index, as in poly (its lib.rt says why).
pub(crate) fn look(case: &Case<'_>, work: &mut [Residue]) -> Sizes
    requires { LookReady case.now.modulus case.now.first.now case.now.second.now case.now.points.now work.old }
    ensures { Looks (length case.now.points.now / 3) case.now.modulus case.now.first.now case.now.second.now case.now.points.now work.old
        work.new result }
{
    let mut sizes: Sizes = [0; MOST_POINTS];
    for i in 0..case.points.len() / COORDINATES {
        let at = COORDINATES * i;
        let point = &case.points[at..at + COORDINATES];
        let seen = poly::image::image_at(case.modulus, case.first, case.second, point);
        sizes[i] = seen.size;
        store(seen.coefficients, POWERS * i, work);
    }
    sizes
}
