// Lists of terms: the check with which every service begins, the public list checks, the leading part, and the shorter of two.
ghost use Rattle.std.specs.Prelude.{◌<◌, length};
ghost use Rattle.field.specs.Refusal.{Checked};
ghost use Rattle.poly.specs.Lists.{WrongModulo, of_terms, of_lists};
ghost use Rattle.poly.specs.LeadingPart.{of_list, LeadingPart};
ghost use Rattle.poly.specs.ShorterPart.{of_two_lists, head_of, ShorterHead, ShorterPart};
ghost use Rattle.poly.specs.Search.{Searched};
ghost use Rattle.poly.specs.List.Model.{Lower};

use crate::Picked;
use crate::key::Key;
use field::{Fault, MOST_TERMS, RefusalNumber, Residue, Term};

// The place of the first term that is wrong where coefficients are below the bound, or the length.
fn first_wrong(bound: u32, terms: &[Term]) -> usize
    ensures { Searched (WrongModulo bound terms.now) (length terms.now) result }
{
    let mut before = Key::LIMIT;
    for (i, &t) in terms.iter().enumerate() {
        let key = Key::of(t).bits;
        let coefficient = crate::key::coefficient_of(t) as u32;
        let right = (key < before) & ((0 < coefficient) & (coefficient < bound));
        if !right {
            return i;
        }
        before = key;
    }
    terms.len()
}

// The check of one list, whose two refusal numbers are given.
fn check_terms(
    count: RefusalNumber,
    term: RefusalNumber,
    bound: u32,
    terms: &[Term],
) -> Result<(), Fault>
    ensures { Checked (of_terms count term (WrongModulo bound terms.now) terms.now) result }
{
    if terms.is_empty() {
        return Err(Fault::at(count, 0));
    }
    if terms.len() > MOST_TERMS {
        return Err(Fault::at(count, 0));
    }
    let place = first_wrong(bound, terms);
    if place < terms.len() {
        return Err(Fault::at(term, place));
    }
    Ok(())
}

// The refusals 1 to 5, of the modulus and the two lists.
pub fn lists_fault(p: Residue, first: &[Term], second: &[Term]) -> Result<(), Fault>
    ensures { Checked (of_lists p first.now second.now) result }
{
    if !field::is_modulus(p) {
        return Err(Fault::at(Fault::MODULUS, 0));
    }
    check_terms(Fault::FIRST_COUNT, Fault::FIRST_TERM, p as u32, first)?;
    check_terms(Fault::SECOND_COUNT, Fault::SECOND_TERM, p as u32, second)
}

// The list check: the refusals 2 and 3 without a modulus, by a bound that no coefficient reaches.
pub fn check_list(terms: &[Term]) -> Result<(), Fault>
    ensures { Checked (of_list terms.now) result }
{
    check_terms(
        Fault::FIRST_COUNT,
        Fault::FIRST_TERM,
        Key::COEFFICIENT_LIMIT,
        terms,
    )
}

// How many terms stand before the first with a lower power of x than the first term's.
fn leading_length(terms: &[Term]) -> usize
    requires { 0 < length terms.now }
    ensures { Searched (Lower terms.now) (length terms.now) result }
{
    let top = Key::of(terms[0]).x();
    for (i, &t) in terms.iter().enumerate() {
        if Key::of(t).x() < top {
            return i;
        }
    }
    terms.len()
}

// The leading part: all terms with the highest power of x, as a part of the caller's list; on refusal its empty head.
pub fn leading_part(terms: &[Term]) -> &[Term]
    ensures { LeadingPart terms.entry result }
{
    match check_list(terms) {
        Err(_) => &terms[..0],
        Ok(()) => &terms[..leading_length(terms)],
    }
}

// The check of two lists: the refusals 2 to 5 without a modulus.
pub fn check_lists(first: &[Term], second: &[Term]) -> Result<(), Fault>
    ensures { Checked (of_two_lists first.now second.now) result }
{
    check_list(first)?;
    let bound = Key::COEFFICIENT_LIMIT;
    check_terms(Fault::SECOND_COUNT, Fault::SECOND_TERM, bound, second)
}

// Which of two lists has the shorter leading part, the first on a tie, and how many terms that has; on refusal the first, and none.
pub fn shorter_head(first: &[Term], second: &[Term]) -> Picked
    ensures { ShorterHead first.now second.now (head_of result) }
{
    match check_lists(first, second) {
        Err(_) => Picked::First(0),
        Ok(()) => {
            let n = leading_length(first);
            let m = leading_length(second);
            if m < n {
                return Picked::Second(m);
            }
            Picked::First(n)
        }
    }
}

// The shorter leading part of two lists, as a part of whichever of the two it belongs to: one lifetime for both.
pub fn shorter_part<'a>(first: &'a [Term], second: &'a [Term]) -> &'a [Term]
    ensures { ShorterPart first.entry second.entry result }
{
    match shorter_head(first, second) {
        Picked::First(n) => &first[..n],
        Picked::Second(m) => &second[..m],
    }
}
