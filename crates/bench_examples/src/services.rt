// The services that no program asks: arithmetic, the leading part, the shorter of two, and the checks beside them.
ghost use Rattle.std.specs.Prelude.{◌≡◌};
ghost use Rattle.field.specs.Contract.{element};

use crate::lists::MODULUS;
use crate::{ask, lists};
use field::{Element, Residue};
use std::io;

fn element(modulus: Residue, value: Residue) -> Element
    ensures { result ≡ element modulus value }
{
    Element { modulus, value }
}

pub(crate) fn arithmetic(rt: &impl Print) -> io::Result<()> {
    let three = element(MODULUS, 3);
    let five = element(MODULUS, 5);
    let sixteen = element(MODULUS, 16);
    ask::arithmetic(rt, "5 + 16", MODULUS, field::ask_sum(five, sixteen))?;
    ask::arithmetic(rt, "5 - 16", MODULUS, field::ask_difference(five, sixteen))?;
    ask::arithmetic(rt, "16 * 16", MODULUS, field::ask_product(sixteen, sixteen))?;
    ask::arithmetic(rt, "1 / 3", MODULUS, field::ask_inverse(three))
}

pub(crate) fn arithmetic_refused(rt: &impl Print) -> io::Result<()> {
    let five = element(MODULUS, 5);
    let large = element(MODULUS, 17);
    ask::arithmetic(rt, "modulus 15", 15, field::ask_sum(element(15, 5), five))?;
    ask::arithmetic(rt, "17 + 5", MODULUS, field::ask_sum(large, five))?;
    ask::arithmetic(rt, "5 + 17", MODULUS, field::ask_sum(five, large))?;
    ask::arithmetic(
        rt,
        "two moduli",
        MODULUS,
        field::ask_sum(five, element(13, 5)),
    )?;
    ask::arithmetic(
        rt,
        "1 / 0",
        MODULUS,
        field::ask_inverse(element(MODULUS, 0)),
    )
}

pub(crate) fn leading_parts(rt: &impl Print) -> io::Result<()> {
    ask::leading_part(rt, "leading part of F", &lists::F)?;
    ask::leading_part(rt, "leading part, two equal keys", &lists::EQUAL_KEYS)?;
    ask::leading_part(rt, "leading part, no terms", &[])
}

pub(crate) fn shorter_parts(rt: &impl Print) -> io::Result<()> {
    ask::shorter_part(rt, "shorter part, F and K", &lists::F, &lists::K)?;
    ask::shorter_part(rt, "shorter part, F and P1", &lists::F, &lists::P1_FIRST)?;
    ask::shorter_part(rt, "shorter part, P1 and F", &lists::P1_FIRST, &lists::F)?;
    ask::shorter_part(
        rt,
        "shorter part, second with two equal keys",
        &lists::F,
        &lists::EQUAL_KEYS,
    )?;
    ask::shorter_part(
        rt,
        "shorter part, first with two equal keys",
        &lists::EQUAL_KEYS,
        &[],
    )?;
    ask::shorter_part(rt, "shorter part, second with no terms", &lists::F, &[])
}
