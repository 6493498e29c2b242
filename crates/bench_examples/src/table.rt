// P1 to P12.
use crate::ask::{candidate, image};
use crate::lists::{
    F, H, K, MODULUS, ONE, ONLY_X, ONLY_Y, P1_FIRST, P1_SECOND, P2_FIRST, P2_SECOND, P4_FIRST,
    P4_SECOND, P11, P12, X_1, X_Y7, X3_1, X3_Y, X3Y_X3_Y, X3Y_X3_Y2_Y, XY_1,
};
use std::io;

pub(crate) fn first_six(rt: &impl Print) -> io::Result<()> {
    candidate(rt, "P1", MODULUS, &P1_FIRST, &P1_SECOND, &X_1, &[0, 0, 0])?;
    candidate(rt, "P2", MODULUS, &P2_FIRST, &P2_SECOND, &ONE, &[0, 0, 0])?;
    candidate(rt, "P3", MODULUS, &P2_FIRST, &P2_SECOND, &XY_1, &[1, 0, 0])?;
    candidate(
        rt,
        "P4",
        MODULUS,
        &P4_FIRST,
        &P4_SECOND,
        &ONLY_X,
        &[0, 0, 0],
    )?;
    candidate(
        rt,
        "P5",
        MODULUS,
        &P4_FIRST,
        &P4_SECOND,
        &ONE,
        &[0, 0, 0, 1, 0, 0],
    )?;
    candidate(
        rt,
        "P6",
        MODULUS,
        &K,
        &K,
        &X3Y_X3_Y2_Y,
        &[1, 0, 0, 2, 0, 0, 3, 0, 0],
    )
}

pub(crate) fn last_six(rt: &impl Print) -> io::Result<()> {
    candidate(
        rt,
        "P7",
        MODULUS,
        &K,
        &K,
        &X3_Y,
        &[1, 0, 0, 2, 0, 0, 3, 0, 0],
    )?;
    candidate(rt, "P8", MODULUS, &K, &K, &X3_1, &[1, 0, 0, 2, 0, 0])?;
    candidate(rt, "P9", MODULUS, &F, &H, &X3Y_X3_Y, &[5, 0, 0])?;
    candidate(
        rt,
        "P9 twice",
        MODULUS,
        &F,
        &H,
        &X3Y_X3_Y,
        &[5, 0, 0, 5, 0, 0],
    )?;
    candidate(
        rt,
        "P10",
        MODULUS,
        &F,
        &H,
        &X3Y_X3_Y,
        &[1, 0, 0, 0, 0, 0, 5, 0, 0, 2, 0, 0],
    )?;
    candidate(rt, "P11", 7, &P11, &P11, &X_Y7, &[1, 0, 0])?;
    candidate(rt, "P12", MODULUS, &P12, &P12, &ONLY_Y, &[2, 0, 0])
}

// The images that the table names.
pub(crate) fn images(rt: &impl Print) -> io::Result<()> {
    image(rt, "P4 at y=0", &P4_FIRST, &P4_SECOND, &[0, 0, 0])?;
    image(rt, "P6 at y=1", &K, &K, &[1, 0, 0])?;
    image(rt, "P6 at y=2", &K, &K, &[2, 0, 0])?;
    image(rt, "P6 at y=3", &K, &K, &[3, 0, 0])
}
