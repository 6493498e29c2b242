// A list of terms times a number.
ghost use Rattle.std.specs.Prelude.{◌≡◌, ◌<◌};
ghost use Rattle.cancel.specs.Scaling.Model.{times};

use field::{Element, Residue, Term};
use poly::key::Key;

// Each coefficient times the factor.
pub(crate) fn scale(p: Residue, factor: Residue, terms: &mut [Term])
    requires { 0 < p }
    ensures { terms.new ≡ times p factor terms.old }
{
    let by = Element::of(p, factor);
    for term in terms {
        let key = Key::of(*term);
        let coefficient = Element::of(p, poly::key::coefficient_of(*term));
        let product = coefficient.product(by);
        *term = poly::key::term(key.bits, product.value);
    }
}
