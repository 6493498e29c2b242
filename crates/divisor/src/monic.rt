// The divisor of a solution: zero coefficients dropped, the others divided by the leading one, as terms.
ghost use Rattle.std.specs.Prelude.{◌≡◌, ◌≤◌, ◌<◌, List, [], ◌∷◌, ◌++◌, ℕ, length, take};
ghost use Rattle.divisor.specs.Candidate.{most_keys};
ghost use Rattle.divisor.specs.Monic.Model.{leading as leading_of, monic_terms, Solvable};

use field::{Element, KeyBits, MOST_KEYS, Residue, Term};
use std::marker::Model;

// The divisor's terms, and behind them room for as many as a skeleton has keys.
#[derive(Drop)]
pub(crate) struct Divisor {
    terms: [Term; MOST_KEYS],
    count: usize,
}

impl Model for Divisor {
    ghost Value = { List ℕ };

    ghost view = { λ d. take d.count d.terms };

    ghost invariant = { λ d. d.count ≤ most_keys };
}

impl Divisor {
    fn none() -> Divisor
        ensures { result ≡ [] }
    {
        Divisor {
            terms: [0; MOST_KEYS],
            count: 0,
        }
    }

    fn push(&mut self, term: Term)
        requires { length self.old < most_keys }
        ensures { self.new ≡ self.old ++ term ∷ [] }
    {
        self.terms[self.count] = term;
        self.count += 1;
    }

    pub(crate) fn list(&self) -> &[Term]
        ensures { result.now ≡ self.now }
    {
        &self.terms[..self.count]
    }
}

// The first coefficient that is not 0, or 0. A loop and no `find`, as in `sorting::alike`.
fn leading(coefficients: &[Residue]) -> Residue
    ensures { result ≡ leading_of coefficients.now }
{
    for coefficient in coefficients {
        if *coefficient != 0 {
            return *coefficient;
        }
    }
    0
}

// The terms of the keys whose coefficient is not 0, each coefficient times the inverse of the leading one.
pub(crate) fn made_monic(p: Residue, skeleton: &[KeyBits], values: &[Residue]) -> Divisor
    requires { Solvable p skeleton.now values.now }
    ensures { result ≡ monic_terms p skeleton.now (take (length skeleton.now) values.now) }
{
    let lead = Element::of(p, leading(&values[..skeleton.len()]));
    let inverse = lead.inverse();
    let mut divisor = Divisor::none();
    for (i, key) in skeleton.iter().enumerate() {
        if values[i] != 0 {
            let value = Element::of(p, values[i]);
            let coefficient = value.product(inverse);
            divisor.push(poly::key::term(*key, coefficient.value));
        }
    }
    divisor
}
