// The equations, one at a time into the table: at each kept point, for each power of x, the skeleton polynomial less the multiplier times
// the image's coefficient is 0.
ghost use Rattle.std.specs.Prelude.{◌≡◌, ◌+◌, ◌-◌, ◌*◌, length};
ghost use Rattle.divisor.specs.Equations.Model.{EquationReady, IsEquation, next_column, ColumnReady, OneOf, IsEquationAt, CanAdd, AddsFirst, CanSolve, Solves};

use crate::sorting::Place;
use crate::table::{Column, MOST_COLUMNS, Row, Solution, Table};
use field::{COORDINATES, Case, Element, KeyBits, Residue};
use poly::POWERS;
use poly::key::Key;

// Equations are counted in 16 bits, like columns: there are at most eight for each of 32 points.
type Count = u16;

// The equation of x^i at a point: a number for each key, u in the multiplier's column. The coordinates y, z and w go to `monomial_at` alone: a struct of
// them would be made here and taken apart there.
fn equation(
    y: Element,
    z: Element,
    w: Element,
    skeleton: &[KeyBits],
    i: KeyBits,
    column: usize,
    u: Element,
) -> Row
    requires { EquationReady y z w skeleton.now column u }
    ensures { IsEquation u.modulus y.value z.value w.value skeleton.now i column u.value result }
{
    let mut row = Row {
        cells: [0; MOST_COLUMNS],
    };
    for (j, bits) in skeleton.iter().enumerate() {
        let key = Key { bits: *bits };
        if key.x() == i {
            row.cells[j] = poly::value::monomial_at(y, z, w, key).value;
        }
    }
    row.cells[column] = u.value;
    row
}

// The column of the next kept point's multiplier: the last for the first point, else behind the keys, in the order kept.
fn column_of(keys: usize, kept: usize, columns: usize) -> usize
    requires { ColumnReady keys kept columns }
    ensures { result ≡ keys + next_column (columns - keys - 1) kept }
{
    if kept == 0 {
        return columns - 1;
    }
    keys + kept - 1
}

// Equation k of the kept points: of the point k / 8, for the power k % 8 of x.
fn equation_at(case: &Case<'_>, places: &[Place], work: &[Residue], k: Count) -> Row
    requires { OneOf case.now.modulus case.now.skeleton.now case.now.points.now places.now work.now (8 * length places.now) k }
    ensures { IsEquationAt case.now.modulus case.now.skeleton.now case.now.points.now places.now work.now (8 * length places.now) k result }
{
    let p = case.modulus;
    let points = case.points;
    let skeleton = case.skeleton;
    let kept = k as usize / POWERS;
    let power = k as usize % POWERS;
    let i = places[kept] as usize;
    let at = COORDINATES * i;
    let y = Element::of(p, points[at]);
    let z = Element::of(p, points[at + 1]);
    let w = Element::of(p, points[at + 2]);
    let zero = Element::zero(p);
    let u = zero.difference(Element::of(p, work[POWERS * i + power]));
    let columns = skeleton.len() + places.len();
    let column = column_of(skeleton.len(), kept, columns);
    equation(y, z, w, skeleton, power as KeyBits, column, u)
}

// The equations of the kept points into the table that is lent, one at a time.
fn add_equations(t: &mut Table, case: &Case<'_>, places: &[Place], work: &[Residue])
    requires { CanAdd case.now.modulus t.old case.now.skeleton.now case.now.points.now places.now work.now (8 * length places.now) }
    ensures { AddsFirst (8 * length places.now) case.now.modulus t.old case.now.skeleton.now case.now.points.now places.now work.now
        (8 * length places.now) t.new }
{
    let n = (POWERS * places.len()) as Count;
    for k in 0..n {
        let e = equation_at(case, places, work, k);
        t.add_equation(e, case.modulus);
    }
}

// How many solutions the equations of the kept points have, and the values of the only one. The first point's multiplier is fixed at 1, in the
// last column; the others' stand behind the skeleton, in the order lent. The one table is a local of this function.
pub(crate) fn solved(case: &Case<'_>, places: &[Place], work: &[Residue]) -> Solution
    requires { CanSolve case.now.modulus case.now.skeleton.now case.now.points.now places.now work.now
        (8 * length places.now) (length case.now.skeleton.now + length places.now) }
    ensures { Solves case.now.modulus case.now.skeleton.now case.now.points.now places.now work.now
        (8 * length places.now) (length case.now.skeleton.now + length places.now) result }
{
    let columns = (case.skeleton.len() + places.len()) as Column;
    let mut t = Table::empty(columns);
    add_equations(&mut t, case, places, work);
    t.solution(case.modulus)
}
