// The lines that are run only, also those that no case file can bring about: P1 with one input changed.
ghost use Rattle.std.specs.Prelude.{[], ◌∷◌};
ghost use Rattle.divisor.specs.declared.CandidateRecord.{CandidateRecord};
ghost use Rattle.divisor.specs.Candidate.{candidate_call, most_steps, candidate_result, Candidate};

use crate::lists::{
    F, H, MODULUS, ONLY_X, P1_FIRST, P1_SECOND, P4_FIRST, P4_SECOND, P11, X_1, X_Y7, X3Y_X3_Y,
};
use crate::{ask, lists};
use divisor::MOST_STEPS;
use field::{Case, KeyBits, Residue, Term};
use std::io;

fn with_first(rt: &impl Print, label: &str, first: &[Term]) -> io::Result<()> {
    ask::candidate(rt, label, MODULUS, first, &P1_SECOND, &X_1, &[0, 0, 0])
}

fn with_skeleton(rt: &impl Print, label: &str, skeleton: &[KeyBits]) -> io::Result<()> {
    ask::candidate(
        rt,
        label,
        MODULUS,
        &P1_FIRST,
        &P1_SECOND,
        skeleton,
        &[0, 0, 0],
    )
}

fn with_points(rt: &impl Print, label: &str, points: &[Residue]) -> io::Result<()> {
    ask::candidate(rt, label, MODULUS, &P1_FIRST, &P1_SECOND, &X_1, points)
}

// P1 in rooms of the caller's, which are left as the service leaves them.
fn with_rooms(
    rt: &impl Print,
    label: &str,
    out: &mut [Term],
    work: &mut [Residue],
) -> io::Result<()>
    ensures { (found : CandidateRecord) × Candidate (candidate_call 17 (67108865 ∷ 16 ∷ []) (67108865 ∷ 33554434 ∷ 1 ∷ []) (512 ∷ 0 ∷ [])
        (0 ∷ 0 ∷ 0 ∷ []) most_steps out.old work.old)
        (candidate_result found out.new work.new) }
{
    let case = Case {
        modulus: MODULUS,
        first: &P1_FIRST,
        second: &P1_SECOND,
        skeleton: &X_1,
        points: &[0, 0, 0],
    };
    ask::candidate_in(rt, label, &case, MOST_STEPS, out, work)
}

pub(crate) fn lists(rt: &impl Print) -> io::Result<()> {
    ask::candidate(
        rt,
        "modulus 15",
        15,
        &P1_FIRST,
        &P1_SECOND,
        &X_1,
        &[0, 0, 0],
    )?;
    with_first(rt, "coefficient 17", &lists::COEFFICIENT_17)?;
    with_first(rt, "coefficient 16", &lists::COEFFICIENT_16)?;
    with_first(rt, "two equal keys", &lists::EQUAL_KEYS)?;
    with_first(rt, "key 4096", &lists::KEY_4096)?;
    let last = lists::KEY_4095;
    ask::candidate(rt, "key 4095", MODULUS, &last, &last, &[4095], &[1, 1, 1])
}

// One x-leading coefficient alone is 0 at y = 0, or one value; the two lists exchanged change nothing.
pub(crate) fn swapped(rt: &impl Print) -> io::Result<()> {
    let kept = lists::LEAD_KEPT;
    let lead = lists::LEAD_LOST;
    let value = lists::VALUE_LOST;
    let points = [0, 0, 0, 1, 0, 0];
    ask::candidate(
        rt,
        "first lead lost",
        MODULUS,
        &lead,
        &kept,
        &X_1,
        &points[..3],
    )?;
    ask::candidate(
        rt,
        "second lead lost",
        MODULUS,
        &kept,
        &lead,
        &X_1,
        &points[..3],
    )?;
    ask::candidate(
        rt,
        "first value lost",
        MODULUS,
        &value,
        &kept,
        &X_1,
        &points,
    )?;
    ask::candidate(
        rt,
        "second value lost",
        MODULUS,
        &kept,
        &value,
        &X_1,
        &points,
    )
}

pub(crate) fn skeletons_and_points(rt: &impl Print) -> io::Result<()> {
    let keys = lists::KEYS_33;
    with_skeleton(rt, "32 keys", &keys[1..])?;
    with_skeleton(rt, "33 keys", &keys)?;
    with_points(rt, "95 point numbers", &[0; 95])?;
    with_points(rt, "96 point numbers", &[0; 96])?;
    with_points(rt, "99 point numbers", &[0; 99])
}

// P10, whose divisions take three steps each.
fn with_ceiling(rt: &impl Print, label: &str, ceiling: usize) -> io::Result<()> {
    let case = Case {
        modulus: MODULUS,
        first: &F,
        second: &H,
        skeleton: &X3Y_X3_Y,
        points: &[1, 0, 0, 0, 0, 0, 5, 0, 0, 2, 0, 0],
    };
    ask::candidate_under(rt, label, &case, ceiling)
}

// P10 at its steps and with one less; and P4 and P11, of which the one has a step to take and the other has none, with no step allowed.
pub(crate) fn ceilings(rt: &impl Print) -> io::Result<()> {
    with_ceiling(rt, "P10, ceiling 6", 6)?;
    with_ceiling(rt, "P10, ceiling 5", 5)?;
    let p4 = Case {
        modulus: MODULUS,
        first: &P4_FIRST,
        second: &P4_SECOND,
        skeleton: &ONLY_X,
        points: &[0, 0, 0],
    };
    ask::candidate_under(rt, "P4, ceiling 0", &p4, 0)?;
    let p11 = Case {
        modulus: 7,
        first: &P11,
        second: &P11,
        skeleton: &X_Y7,
        points: &[1, 0, 0],
    };
    ask::candidate_under(rt, "P11, ceiling 0", &p11, 0)
}

pub(crate) fn rooms(rt: &impl Print) -> io::Result<()> {
    let mut out = [0; 2];
    let mut short_out = [0; 1];
    let mut work = [0; 8192];
    let mut short_work = [0; 8191];
    with_rooms(rt, "output 1, work 8191", &mut short_out, &mut short_work)?;
    with_rooms(rt, "output 1, work 8192", &mut short_out, &mut work)?;
    with_rooms(rt, "output 2, work 8191", &mut out, &mut short_work)?;
    with_rooms(rt, "output 2, work 8192", &mut out, &mut work)
}

pub(crate) fn quotients(rt: &impl Print) -> io::Result<()> {
    let x_plus_1 = lists::X_PLUS_1;
    let mut out = [0; 4096];
    let mut short_out = [0; 4095];
    let mut work = [0; 8192];
    let mut short_work = [0; 8191];
    ask::quotient(
        rt,
        "quotient, output 4095",
        &P1_FIRST,
        &x_plus_1,
        &mut short_out,
        &mut work,
    )?;
    ask::quotient(
        rt,
        "quotient, work 8191",
        &P1_FIRST,
        &x_plus_1,
        &mut out,
        &mut short_work,
    )?;
    ask::quotient(
        rt,
        "x^2-1 by x+1",
        &P1_FIRST,
        &x_plus_1,
        &mut out,
        &mut work,
    )?;
    ask::quotient(
        rt,
        "x^2-1 by x^2+2x+1",
        &P1_FIRST,
        &P1_SECOND,
        &mut out,
        &mut work,
    )?;
    ask::quotient(rt, "F by E", &lists::F, &lists::E, &mut out, &mut work)
}

pub(crate) fn images(rt: &impl Print) -> io::Result<()> {
    ask::image(rt, "image at two numbers", &P1_FIRST, &P1_SECOND, &[0, 0])?;
    ask::image(
        rt,
        "image at a bad point",
        &lists::P2_FIRST,
        &lists::P2_SECOND,
        &[0, 0, 0],
    )?;
    let kept = lists::LEAD_KEPT;
    ask::image(
        rt,
        "image, first lead lost",
        &lists::LEAD_LOST,
        &kept,
        &[0, 0, 0],
    )?;
    ask::image(
        rt,
        "image, first value lost",
        &lists::VALUE_LOST,
        &kept,
        &[0, 0, 0],
    )
}
