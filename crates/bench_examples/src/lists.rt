// The polynomials, skeletons and points of the bench examples, modulo 17 unless said. Keys add where monomials are multiplied.
use poly::key::Key;

// The modulus, where none is said.
pub(crate) const MODULUS: u16 = 17;

// The keys of x and y.
const X: u16 = 512;

const Y: u16 = 64;

// The same in a term, where a coefficient is added.
const TX: u32 = (X as u32) * Key::COEFFICIENT_LIMIT;

const TY: u32 = (Y as u32) * Key::COEFFICIENT_LIMIT;

// x^2 - 1 and x^2 + 2x + 1.
pub(crate) const P1_FIRST: [u32; 2] = [2 * TX + 1, 16];

pub(crate) const P1_SECOND: [u32; 3] = [2 * TX + 1, TX + 2, 1];

// (3yx + 1)(x - y) and (3yx + 1)(x + y + 1).
pub(crate) const P2_FIRST: [u32; 4] = [2 * TX + TY + 3, TX + 2 * TY + 14, TX + 1, TY + 16];

pub(crate) const P2_SECOND: [u32; 6] = [
    2 * TX + TY + 3,
    TX + 2 * TY + 3,
    TX + TY + 3,
    TX + 1,
    TY + 1,
    1,
];

// 7x + 6y and 12x + y.
pub(crate) const P4_FIRST: [u32; 2] = [TX + 7, TY + 6];

pub(crate) const P4_SECOND: [u32; 2] = [TX + 12, TY + 1];

// (y + 2)x^3 + 12y^2 + 7y.
pub(crate) const K: [u32; 4] = [3 * TX + TY + 1, 3 * TX + 2, 2 * TY + 12, TY + 7];

// (x - y + 1)E and (x + y + 1)E, where E is (y + 16)x^3 + 15y.
pub(crate) const F: [u32; 8] = [
    4 * TX + TY + 1,
    4 * TX + 16,
    3 * TX + 2 * TY + 16,
    3 * TX + TY + 2,
    3 * TX + 16,
    TX + TY + 15,
    2 * TY + 2,
    TY + 15,
];

pub(crate) const H: [u32; 7] = [
    4 * TX + TY + 1,
    4 * TX + 16,
    3 * TX + 2 * TY + 1,
    3 * TX + 16,
    TX + TY + 15,
    2 * TY + 15,
    TY + 15,
];

// x + y.
pub(crate) const P11: [u32; 2] = [TX + 1, TY + 1];

// 3y.
pub(crate) const P12: [u32; 1] = [TY + 3];

// Skeletons, by their keys.
pub(crate) const ONE: [u16; 1] = [0];

pub(crate) const X_1: [u16; 2] = [X, 0];

pub(crate) const XY_1: [u16; 2] = [X + Y, 0];

pub(crate) const ONLY_X: [u16; 1] = [X];

pub(crate) const ONLY_Y: [u16; 1] = [Y];

pub(crate) const X3Y_X3_Y2_Y: [u16; 4] = [3 * X + Y, 3 * X, 2 * Y, Y];

pub(crate) const X3_Y: [u16; 2] = [3 * X, Y];

pub(crate) const X3_1: [u16; 2] = [3 * X, 0];

pub(crate) const X3Y_X3_Y: [u16; 3] = [3 * X + Y, 3 * X, Y];

pub(crate) const X_Y7: [u16; 2] = [X, 7 * Y];

// (x + 1)(xy + 1), whose x-leading coefficient is 0 at y = 0; y(x + 1), which is 0 there; and (x + 1)(x + 2).
pub(crate) const LEAD_LOST: [u32; 4] = [2 * TX + TY + 1, TX + TY + 1, TX + 1, 1];

pub(crate) const VALUE_LOST: [u32; 2] = [TX + TY + 1, TY + 1];

pub(crate) const LEAD_KEPT: [u32; 3] = [2 * TX + 1, TX + 3, 2];

// Lists for the lines that are run only.
pub(crate) const COEFFICIENT_17: [u32; 2] = [2 * TX + 1, 17];

pub(crate) const COEFFICIENT_16: [u32; 2] = [2 * TX + 16, 1];

pub(crate) const EQUAL_KEYS: [u32; 2] = [2 * TX + 1, 2 * TX + 16];

pub(crate) const KEY_4096: [u32; 1] = [4096 * Key::COEFFICIENT_LIMIT + 1];

pub(crate) const KEY_4095: [u32; 1] = [4095 * Key::COEFFICIENT_LIMIT + 1];

// E and x + 1.
pub(crate) const E: [u32; 3] = [3 * TX + TY + 1, 3 * TX + 16, TY + 15];

pub(crate) const X_PLUS_1: [u32; 2] = [TX + 1, 1];

pub(crate) const KEYS_33: [u16; 33] = [
    543, 542, 541, 540, 539, 538, 537, 536, 535, 534, 533, 532, 531, 530, 529, 528, 527, 526, 525,
    524, 523, 522, 521, 520, 519, 518, 517, 516, 515, 514, 513, 512, 0,
];
