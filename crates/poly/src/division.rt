// Division by leading terms in a lent work room: one number for each key holds the remainder, the next as many hold the quotient's coefficients.
ghost use Rattle.std.specs.Prelude.{◌≡◌, ◌<◌, length, IfErr};
ghost use Rattle.poly.specs.Keys.{keys};
ghost use Rattle.poly.specs.TrialDivision.{CanDivide, TrialDivision, trial};
ghost use Rattle.poly.specs.Division.SpreadModel.{spread as spread_over};
ghost use Rattle.poly.specs.Division.Model.{KeysBelow, most_key, at_most, fits_in, less_product};
ghost use Rattle.poly.specs.Division.WorkRoomModel.{CanSubtract, CanStep, Stepped, CanBegin, Divided};

use crate::Stopped;
use crate::key::{Key, coefficient_of};
use crate::rooms::{CELLS, WORK_ROOM, clear};
use field::{Element, Fault, KeyBits, Residue, Term};

// The key of the greatest exponents of a list.
fn most(terms: &[Term]) -> Key
    requires { KeysBelow 0 keys terms.now }
    ensures { result.bits ≡ most_key terms.now }
{
    let mut x: KeyBits = 0;
    let mut y: KeyBits = 0;
    let mut z: KeyBits = 0;
    let mut w: KeyBits = 0;
    for &t in terms {
        let key = Key::of(t);
        x = x.max(key.x());
        y = y.max(key.y());
        z = z.max(key.z());
        w = w.max(key.w());
    }
    Key::pack(x, y, z, w)
}

// Each exponent of `a` is at most that of `b`.
fn at_most(a: Key, b: Key) -> bool
    ensures { result ≡ at_most a.bits b.bits }
{
    (a.x() <= b.x()) & (a.y() <= b.y()) & (a.z() <= b.z()) & (a.w() <= b.w())
}

// Whether the term at the key `k` can be divided by the one at `lead`: no exponent of the quotient is negative, none above the bound.
fn fits(k: KeyBits, lead: KeyBits, bound: Key) -> bool
    ensures { result ≡ fits_in lead bound.bits k }
{
    if !at_most(Key { bits: lead }, Key { bits: k }) {
        return false;
    }
    at_most(Key { bits: k - lead }, bound)
}

// Each term's coefficient stored at its key.
fn spread(terms: &[Term], cells: &mut [Residue])
    requires { KeysBelow 0 (length cells.old) terms.now }
    ensures { cells.new ≡ spread_over terms.now cells.old }
{
    for &t in terms {
        let at = Key::of(t).bits as usize;
        cells[at] = coefficient_of(t);
    }
}

// The cells less a term of the quotient, `q` at the key `shift`, times the divisor.
fn subtract(q: Element, shift: usize, divisor: &[Term], cells: &mut [Residue])
    requires { CanSubtract q.modulus q.value shift divisor.now cells.old }
    ensures { cells.new ≡ less_product q.modulus shift q.value divisor.now cells.old }
{
    for &t in divisor {
        let at = Key::of(t).bits as usize + shift;
        let c = Element::of(q.modulus, coefficient_of(t));
        cells[at] = Element::of(q.modulus, cells[at]).minus_product(q, c).value;
    }
}

// The steps of a division, where the cells from `top` on are 0. Each leading term that can be divided gives a term of the quotient, stored at
// its key; the search for the next one is left at the first that cannot, and where one is due and the ceiling is reached. Keys are counted in 16 bits:
// on a 32-bit core a 64-bit count takes two registers. The labelled loops are a form that docs/FORMS.md lists.
fn steps(
    divisor: &[Term],
    lead: KeyBits,
    inverse: Element,
    bound: Key,
    top: KeyBits,
    ceiling: usize,
    work: &mut [Residue],
) -> Result<usize, Stopped>
    requires { CanStep (record { modulus = inverse.modulus; terms = divisor.now; lead = lead; inverse = inverse.value; bound = bound.bits })
        top work.old }
    ensures steps { Stepped (record {
      modulus = inverse.modulus;
      terms = divisor.now;
      lead = lead;
      inverse = inverse.value;
      bound = bound.bits;
    }) ceiling work.old work.new (trial result) }
    ensures numbered { IfErr result (λ s. 0 < s.number) }
{
    let mut k = top;
    let mut taken: usize = 0;
    'steps: loop {
        loop {
            if k == 0 {
                break 'steps;
            }
            k -= 1;
            if work[k as usize] != 0 {
                if !fits(k, lead, bound) {
                    return Err(Stopped {
                        number: Fault::DOES_NOT_DIVIDE,
                        steps: taken,
                    });
                }
                break;
            }
        }
        if taken == ceiling {
            return Err(Stopped {
                number: Fault::CEILING_REACHED,
                steps: taken,
            });
        }
        taken += 1;
        let shift = (k - lead) as usize;
        let q = Element::of(inverse.modulus, work[k as usize]).product(inverse);
        work[CELLS + shift] = q.value;
        subtract(q, shift, divisor, work);
    }
    Ok(taken)
}

// Whether the divisor divides the dividend, in a room whose cells of the remainder are 0; the quotient's coefficients are stored in its other cells.
pub(crate) fn divide(
    p: Residue,
    dividend: &[Term],
    divisor: &[Term],
    ceiling: usize,
    work: &mut [Residue],
) -> Result<usize, Stopped>
    requires { CanBegin p dividend.now divisor.now work.old }
    ensures division { Divided p dividend.now divisor.now ceiling work.old work.new (trial result) }
    ensures numbered { IfErr result (λ s. 0 < s.number) }
{
    let above = most(dividend);
    let below = most(divisor);
    if !at_most(below, above) {
        return Err(Stopped {
            number: Fault::DOES_NOT_DIVIDE,
            steps: 0,
        });
    }
    let bound = Key {
        bits: above.bits - below.bits,
    };
    let first = divisor[0];
    let coefficient = Element::of(p, coefficient_of(first));
    let inverse = coefficient.inverse();
    let lead = Key::of(first);
    let highest = Key::of(dividend[0]);
    let top = highest.bits + 1;
    spread(dividend, work);
    steps(divisor, lead.bits, inverse, bound, top, ceiling, work)
}

// Trial division under a ceiling on its steps: whether the divisor divides the dividend, as polynomials. The work room is left cleared.
pub fn divides(
    p: Residue,
    dividend: &[Term],
    divisor: &[Term],
    ceiling: usize,
    work: &mut [Residue],
) -> Result<usize, Stopped>
    requires { CanDivide p dividend.now divisor.now work.old }
    ensures division { TrialDivision p dividend.now divisor.now ceiling work.old work.new (trial result) }
    ensures numbered { IfErr result (λ s. 0 < s.number) }
{
    clear(CELLS, work);
    let trial = divide(p, dividend, divisor, ceiling, work);
    clear(WORK_ROOM, work);
    trial
}
