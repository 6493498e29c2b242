// The arithmetic services: what they refuse, and what they answer.
ghost use Rattle.field.specs.Refusal.{Checked, StandsFor};
ghost use Rattle.field.specs.Arithmetic.{first_operand, two_operands, inverse_operand, refused_answer, given_answer, AskSum, AskDifference, AskProduct, AskInverse};

use crate::{Element, Fault, is_modulus};

// The lines of the table that every service tests: the modulus, and the first operand.
fn check_first_operand(a: Element) -> Result<(), Fault>
    ensures { Checked (first_operand a) result }
{
    let listed = is_modulus(a.modulus);
    let below = a.value < a.modulus;
    if !listed {
        return Err(Fault::at(Fault::MODULUS, 0));
    }
    if !below {
        return Err(Fault::at(Fault::OPERAND, 0));
    }
    Ok(())
}

fn check_operands(a: Element, b: Element) -> Result<(), Fault>
    ensures { Checked (two_operands a b) result }
{
    check_first_operand(a)?;
    let fits = (b.value < a.modulus) & (b.modulus == a.modulus);
    if !fits {
        return Err(Fault::at(Fault::OPERAND, 1));
    }
    Ok(())
}

fn check_inverse_operand(a: Element) -> Result<(), Fault>
    ensures { Checked (inverse_operand a) result }
{
    check_first_operand(a)?;
    if a.value == 0 {
        return Err(Fault::at(Fault::INVERSE_OF_ZERO, 0));
    }
    Ok(())
}

pub fn ask_sum(a: Element, b: Element) -> Result<Element, Fault>
    ensures { StandsFor (refused_answer a) given_answer (AskSum a b) result }
{
    check_operands(a, b)?;
    Ok(a.sum(b))
}

pub fn ask_difference(a: Element, b: Element) -> Result<Element, Fault>
    ensures { StandsFor (refused_answer a) given_answer (AskDifference a b) result }
{
    check_operands(a, b)?;
    Ok(a.difference(b))
}

pub fn ask_product(a: Element, b: Element) -> Result<Element, Fault>
    ensures { StandsFor (refused_answer a) given_answer (AskProduct a b) result }
{
    check_operands(a, b)?;
    Ok(a.product(b))
}

pub fn ask_inverse(a: Element) -> Result<Element, Fault>
    ensures { StandsFor (refused_answer a) given_answer (AskInverse a) result }
{
    check_inverse_operand(a)?;
    Ok(a.inverse())
}
