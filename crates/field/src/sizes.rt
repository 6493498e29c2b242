// Widths and sizes that every layer and the case file share. A wider number is a change here and in the definitions.

// A number modulo p: a modulus, a coordinate, a coefficient or a number of the work room.
pub type Residue = u16;

// Twice as wide: a product of two residues, with a third added, fits.
pub type Wide = u32;

// The key of a monomial.
pub type KeyBits = u16;

// A term: a key and a coefficient.
pub type Term = u32;

// A number of the table of refusals.
pub type RefusalNumber = u16;

// A list of a call, by number.
pub type ListNumber = u16;

// The coordinates of a point, y, z and w.
pub const COORDINATES: usize = 3;

// The most terms of a list, keys of a skeleton, points, and numbers of points.
pub const MOST_TERMS: usize = 256;

pub const MOST_KEYS: usize = 32;

pub const MOST_POINTS: usize = 32;

pub const MOST_POINT_NUMBERS: usize = COORDINATES * MOST_POINTS;
