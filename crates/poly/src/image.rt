// The image of two polynomials at a point: the monic greatest common divisor of their values, as polynomials in x.
ghost use Rattle.std.specs.Prelude.{◌≡◌};
ghost use Rattle.field.specs.Refusal.{Checked, StandsFor};
ghost use Rattle.poly.specs.ImageCall.{image_call, refused_image, found_image, image_table, Fine, AnswersPoint, ImageAnswer};
ghost use Rattle.poly.specs.Image.Model.{seen};

use crate::{Eight, MonicImage, POWERS, PointImage, Size, euclid, list, points, value};
use field::{Element, Fault, Residue, Term};

// The image at a point, of inputs that are in order: its coefficients into u, and its size; at a bad point all are 0. A point is bad if both
// x-leading coefficients are 0 there; else a value that keeps its degree is not 0, and the other is divided by it.
fn image_into(p: Residue, first: &[Term], second: &[Term], point: &[Residue], u: &mut Eight) -> Size
    requires { Fine p first.now second.now point.now }
    ensures { AnswersPoint p first.now second.now point.now (seen result u.new) }
{
    let mut v: Eight = [Element::ZERO; POWERS];
    let m = value::value(p, point, first, u);
    let n = value::value(p, point, second, &mut v);
    if m != 0 {
        return euclid::gcd(p, &mut v, u);
    }
    if n != 0 {
        let size = euclid::gcd(p, u, &mut v);
        *u = v;
        return size;
    }
    *u = [Element::ZERO; POWERS];
    0
}

// The image at a point, of inputs that are in order, by value: for the layer above.
pub fn image_at(p: Residue, first: &[Term], second: &[Term], point: &[Residue]) -> PointImage
    requires { Fine p first.now second.now point.now }
    ensures { AnswersPoint p first.now second.now point.now result }
{
    let mut u: Eight = [Element::ZERO; POWERS];
    let size = image_into(p, first, second, point, &mut u);
    PointImage {
        size,
        coefficients: u,
    }
}

// The refusals of the image's inputs.
fn check_call(p: Residue, first: &[Term], second: &[Term], point: &[Residue]) -> Result<(), Fault>
    ensures { Checked (image_table (image_call p first.now second.now point.now)) result }
{
    list::lists_fault(p, first, second)?;
    points::check_point(p, point)
}

// The image service.
pub fn image(
    p: Residue,
    first: &[Term],
    second: &[Term],
    point: &[Residue],
) -> Result<MonicImage, Fault>
    ensures { StandsFor refused_image found_image (ImageAnswer (image_call p first.now second.now point.now)) result }
{
    check_call(p, first, second, point)?;
    let mut coefficients: Eight = [Element::ZERO; POWERS];
    let size = image_into(p, first, second, point, &mut coefficients);
    if size == 0 {
        return Err(Fault::at(Fault::NO_GOOD_POINT, 0));
    }
    Ok(MonicImage {
        coefficients,
        degree: size as usize - 1,
    })
}
