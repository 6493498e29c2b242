// The static library for C and Rust programs: each service with C's calling convention, on numbers and slices. A slice is a pointer, then a length.
// A record is handed back as numbers in a lent array, so that no layout of a struct is shared with C.
// include/balungkiro.h says the same to C.
#![tactic(auto)]

ghost use Rattle.std.specs.Prelude.{◌≡◌, ◌+◌, length};
ghost use Rattle.field.specs.Refusal.{after_fault, Tested};
ghost use Rattle.field.specs.Faults.Laws.{told};
ghost use Rattle.field.specs.Contract.{element};
ghost use Rattle.field.specs.Arithmetic.{refused_answer, given_answer, AskSum, AskDifference, AskProduct, AskInverse};
ghost use Rattle.poly.specs.LeadingPart.{of_list, LeadingTerms};
ghost use Rattle.poly.specs.ShorterPart.{of_two_lists, ShorterHead};
ghost use Rattle.poly.specs.QuotientCall.{quotient_call, Quotient};
ghost use Rattle.poly.specs.ImageCall.{image_call, ImageAnswer};
ghost use Rattle.divisor.specs.Candidate.{candidate_call, Candidate};
ghost use Rattle.cancel.specs.CancelCall.{cancel_call, Cancel};
ghost use Rattle.case_file.specs.Reading.{read};
ghost use Rattle.case_file.specs.Handed.{contents};
ghost use Rattle.case_file.specs.WriteCall.{write_call, Write};
ghost use Rattle.handheld.specs.Layout.{Laid, of_fault, of_picked, of_answer, of_quotient, of_image, of_candidate, of_cancel, of_contents, of_write};

use case_file::{Keys, PointNumbers, Terms};
use field::{Case, Element, Fault, KeyBits, Residue, Term};
use poly::{Eight, POWERS, Picked};

// Number, list and place of what is refused, or zeros; then the rest of the record.
fn lay(fault: Fault, rest: &[usize], numbers: &mut [usize])
    requires { length numbers.old ≡ 3 + length rest.now }
    ensures { numbers.new ≡ after_fault fault rest.now }
{
    let first = [fault.number as usize, fault.list as usize, fault.place];
    numbers[..3].copy_from_slice(&first);
    numbers[3..].copy_from_slice(rest);
}

// Numbers: number, list, place, d, bad, unlucky, kept, count of terms, steps of division.
#[unsafe(no_mangle)]
pub extern "C" fn balungkiro_candidate(
    modulus: Residue,
    first: &[Term],
    second: &[Term],
    skeleton: &[KeyBits],
    points: &[Residue],
    ceiling: usize,
    out: &mut [Term],
    work: &mut [Residue],
    numbers: &mut [usize; 9],
)
    ensures { Laid of_candidate (Candidate (candidate_call modulus first.now second.now skeleton.now
        points.now ceiling out.old work.old))
        (record { numbers = numbers.new; output = out.new; work = work.new }) }
{
    let case = Case {
        modulus,
        first,
        second,
        skeleton,
        points,
    };
    let found = divisor::candidate(&case, ceiling, out, work);
    let rest = [
        found.degree,
        found.bad,
        found.unlucky,
        found.kept,
        found.terms,
        found.steps,
    ];
    lay(found.fault, &rest, numbers);
}

// Numbers: number, list, place, d, bad, unlucky, kept, counts of the terms of both results, steps of division.
#[unsafe(no_mangle)]
pub extern "C" fn balungkiro_cancel(
    modulus: Residue,
    numerator: &[Term],
    denominator: &[Term],
    skeleton: &[KeyBits],
    points: &[Residue],
    ceiling: usize,
    numerator_out: &mut [Term],
    denominator_out: &mut [Term],
    work: &mut [Residue],
    numbers: &mut [usize; 10],
)
    ensures { Laid of_cancel (Cancel (cancel_call modulus numerator.now denominator.now skeleton.now
        points.now ceiling numerator_out.old denominator_out.old work.old))
        (record {
          numbers = numbers.new;
          numerator_output = numerator_out.new;
          denominator_output = denominator_out.new;
          work = work.new;
        }) }
{
    let case = Case {
        modulus,
        first: numerator,
        second: denominator,
        skeleton,
        points,
    };
    let told = cancel::cancel(&case, ceiling, numerator_out, denominator_out, work);
    let rest = [
        told.degree,
        told.bad,
        told.unlucky,
        told.kept,
        told.numerator,
        told.denominator,
        told.steps,
    ];
    lay(told.fault, &rest, numbers);
}

// Numbers: number, list, place, count of terms.
#[unsafe(no_mangle)]
pub extern "C" fn balungkiro_quotient(
    modulus: Residue,
    first: &[Term],
    second: &[Term],
    out: &mut [Term],
    work: &mut [Residue],
    numbers: &mut [usize; 4],
)
    ensures { Laid of_quotient (Quotient (quotient_call modulus first.now second.now out.old
        work.old)) (record { numbers = numbers.new; output = out.new; work = work.new }) }
{
    match poly::quotient::quotient(modulus, first, second, out, work) {
        Ok(terms) => lay(Fault::none(), &[terms], numbers),
        Err(fault) => lay(fault, &[0], numbers),
    }
}

// Numbers: number, list, place, degree.
#[unsafe(no_mangle)]
pub extern "C" fn balungkiro_image(
    modulus: Residue,
    first: &[Term],
    second: &[Term],
    point: &[Residue],
    coefficients: &mut Eight,
    numbers: &mut [usize; 4],
)
    ensures { Laid of_image (ImageAnswer (image_call modulus first.now second.now point.now))
        (record { numbers = numbers.new; coefficients = coefficients.new }) }
{
    match poly::image::image(modulus, first, second, point) {
        Ok(seen) => {
            let u = seen.coefficients;
            *coefficients = u;
            lay(Fault::none(), &[seen.degree], numbers);
        }
        Err(fault) => {
            *coefficients = [Element::ZERO; POWERS];
            lay(fault, &[0], numbers);
        }
    }
}

// How many terms the leading part has, which is the head of the caller's own list; 0 on refusal.
#[unsafe(no_mangle)]
pub extern "C" fn balungkiro_leading_part(terms: &[Term]) -> usize
    ensures { Laid length (LeadingTerms terms.now) result }
{
    let head = poly::list::leading_part(terms);
    head.len()
}

// Numbers: number, list, place.
#[unsafe(no_mangle)]
pub extern "C" fn balungkiro_check_list(terms: &[Term], numbers: &mut [usize; 3])
    ensures { Laid of_fault (Tested (of_list terms.now)) numbers.new }
{
    match poly::list::check_list(terms) {
        Ok(()) => lay(Fault::none(), &[], numbers),
        Err(fault) => lay(fault, &[], numbers),
    }
}

// Numbers: how many terms the shorter leading part has, and which list it is the head of, 1 or 2; on refusal 0 and 1.
#[unsafe(no_mangle)]
pub extern "C" fn balungkiro_shorter_part(first: &[Term], second: &[Term], numbers: &mut [usize; 2])
    ensures { Laid of_picked (ShorterHead first.now second.now) numbers.new }
{
    *numbers = match poly::list::shorter_head(first, second) {
        Picked::First(terms) => [terms, 1],
        Picked::Second(terms) => [terms, 2],
    };
}

// Numbers: number, list, place.
#[unsafe(no_mangle)]
pub extern "C" fn balungkiro_check_lists(first: &[Term], second: &[Term], numbers: &mut [usize; 3])
    ensures { Laid of_fault (Tested (of_two_lists first.now second.now)) numbers.new }
{
    match poly::list::check_lists(first, second) {
        Ok(()) => lay(Fault::none(), &[], numbers),
        Err(found) => lay(found, &[], numbers),
    }
}

// Number, list, place, modulus, value; where it is refused, the first operand's modulus as it came, and 0.
fn lay_answer(modulus: Residue, answer: Result<Element, Fault>, numbers: &mut [usize; 5])
    ensures { numbers.new ≡ of_answer (told (refused_answer (element modulus 0)) given_answer answer) }
{
    match answer {
        Ok(outcome) => {
            let rest = [outcome.modulus as usize, outcome.value as usize];
            lay(Fault::none(), &rest, numbers);
        }
        Err(fault) => lay(fault, &[modulus as usize, 0], numbers),
    }
}

// C calls each of the four by its own name, with plain numbers.
#[unsafe(no_mangle)]
pub extern "C" fn balungkiro_sum(
    modulus: Residue,
    value: Residue,
    other_modulus: Residue,
    other_value: Residue,
    numbers: &mut [usize; 5],
)
    ensures { Laid of_answer (AskSum (element modulus value) (element other_modulus other_value)) numbers.new }
{
    let a = Element { modulus, value };
    let b = Element {
        modulus: other_modulus,
        value: other_value,
    };
    lay_answer(modulus, field::ask_sum(a, b), numbers);
}

#[unsafe(no_mangle)]
pub extern "C" fn balungkiro_difference(
    modulus: Residue,
    value: Residue,
    other_modulus: Residue,
    other_value: Residue,
    numbers: &mut [usize; 5],
)
    ensures { Laid of_answer (AskDifference (element modulus value) (element other_modulus other_value)) numbers.new }
{
    let a = Element { modulus, value };
    let b = Element {
        modulus: other_modulus,
        value: other_value,
    };
    lay_answer(modulus, field::ask_difference(a, b), numbers);
}

#[unsafe(no_mangle)]
pub extern "C" fn balungkiro_product(
    modulus: Residue,
    value: Residue,
    other_modulus: Residue,
    other_value: Residue,
    numbers: &mut [usize; 5],
)
    ensures { Laid of_answer (AskProduct (element modulus value) (element other_modulus other_value)) numbers.new }
{
    let a = Element { modulus, value };
    let b = Element {
        modulus: other_modulus,
        value: other_value,
    };
    lay_answer(modulus, field::ask_product(a, b), numbers);
}

#[unsafe(no_mangle)]
pub extern "C" fn balungkiro_inverse(modulus: Residue, value: Residue, numbers: &mut [usize; 5])
    ensures { Laid of_answer (AskInverse (element modulus value)) numbers.new }
{
    let a = Element { modulus, value };
    lay_answer(modulus, field::ask_inverse(a), numbers);
}

// Numbers: number, list, place, modulus, and how many numbers the first list, the second, the skeleton and the points have.
#[unsafe(no_mangle)]
pub extern "C" fn balungkiro_read(
    bytes: &[u8],
    first: &mut Terms,
    second: &mut Terms,
    skeleton: &mut Keys,
    points: &mut PointNumbers,
    numbers: &mut [usize; 8],
)
    ensures { Laid of_contents (λ r. r ≡ contents (read bytes.now))
        (record {
          numbers = numbers.new;
          first = first.new;
          second = second.new;
          skeleton = skeleton.new;
          points = points.new;
        }) }
{
    match case_file::read_into(bytes, first, second, skeleton, points) {
        Ok(counts) => {
            let rest = [
                counts.modulus as usize,
                counts.first,
                counts.second,
                counts.skeleton,
                counts.points,
            ];
            lay(Fault::none(), &rest, numbers);
        }
        Err(refused) => lay(refused, &[0; 5], numbers),
    }
}

// Numbers: number, list, place, length.
#[unsafe(no_mangle)]
pub extern "C" fn balungkiro_write(
    modulus: Residue,
    first: &[Term],
    second: &[Term],
    skeleton: &[KeyBits],
    points: &[Residue],
    buffer: &mut [u8],
    numbers: &mut [usize; 4],
)
    ensures { Laid of_write (Write (write_call modulus first.now second.now skeleton.now
        points.now buffer.old)) (record { numbers = numbers.new; buffer = buffer.new }) }
{
    let case = Case {
        modulus,
        first,
        second,
        skeleton,
        points,
    };
    match case_file::write(&case, buffer) {
        Ok(length) => lay(Fault::none(), &[length], numbers),
        Err(unwritten) => lay(unwritten, &[0], numbers),
    }
}
