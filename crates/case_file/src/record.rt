// One record of a case file: its kind, its tests, and its numbers into their list.
ghost use Rattle.std.specs.Prelude.{◌≡◌, ◌+◌, ◌≤◌, length};
ghost use Rattle.std.proofs.lemmas.List.Edits.{sets};
ghost use Rattle.case_file.specs.Format.{body as body_of, limit as limit_of, follows as follows_of, today};
ghost use Rattle.case_file.specs.Handed.{counted};
ghost use Rattle.case_file.specs.Kinds.{kind_byte, Decodes};
ghost use Rattle.case_file.specs.Record.Kinds.{standing, Tests};
ghost use Rattle.case_file.specs.Record.Room.{held as held_of, two, four};

use crate::Counts;
use field::{COORDINATES, Fault, MOST_KEYS, MOST_POINTS, MOST_TERMS, RefusalNumber};

// The kinds, in the order in which their records stand; the number of a kind is its byte.
#[derive(Clone, Copy, PartialEq, Eq, PartialOrd, Ord)]
pub enum Kind {
    Modulus = 1,
    First,
    Second,
    Skeleton,
    Point,
    End,
}

impl TryFrom<u8> for Kind {
    type Error = RefusalNumber;

    ghost try_from_gives = { Decodes };

    fn try_from(byte: u8) -> Result<Kind, RefusalNumber> {
        match byte {
            1 => Ok(Kind::Modulus),
            2 => Ok(Kind::First),
            3 => Ok(Kind::Second),
            4 => Ok(Kind::Skeleton),
            5 => Ok(Kind::Point),
            6 => Ok(Kind::End),
            _ => Err(Fault::KIND_UNKNOWN),
        }
    }
}

#[tactic(auto, unfolding(crate::specs::Format::kind_of))]
impl Kind {
    // The length of a body.
    pub(crate) fn body(self) -> usize
        ensures { result ≡ body_of today (kind_byte self) }
    {
        match self {
            Kind::Modulus | Kind::Skeleton => 2,
            Kind::First | Kind::Second => 4,
            Kind::Point => 6,
            Kind::End => 0,
        }
    }

    // The most records.
    fn limit(self) -> usize
        ensures { result ≡ limit_of today (kind_byte self) }
    {
        match self {
            Kind::Modulus | Kind::End => 1,
            Kind::First | Kind::Second => MOST_TERMS,
            Kind::Skeleton => MOST_KEYS,
            Kind::Point => MOST_POINTS,
        }
    }

    // Whether a record of the kind may stand after one of kind `before`; there is none at the start.
    fn follows(self, before: Option<Kind>) -> bool
        ensures { result ≡ follows_of today (standing before) (kind_byte self) }
    {
        match before {
            None => self == Kind::Modulus,
            Some(last) => (last <= self) & (Kind::Modulus < self),
        }
    }

    // How many records of the kind were read. Those of modulus and end have no count: the order of kinds bounds them.
    fn held(self, counts: Counts) -> usize
        ensures { result ≡ held_of (counted counts) (kind_byte self) }
    {
        match self {
            Kind::Modulus | Kind::End => 0,
            Kind::First => counts.first,
            Kind::Second => counts.second,
            Kind::Skeleton => counts.skeleton,
            Kind::Point => counts.points / COORDINATES,
        }
    }
}

// The kind of a record that passes its tests, or the number of the first test that it does not pass. `left` bytes follow its kind byte.
pub(crate) fn tested(
    before: Option<Kind>,
    byte: u8,
    counts: Counts,
    left: usize,
) -> Result<Kind, RefusalNumber>
    ensures { Tests (standing before) byte (held_of (counted counts) byte) left result }
{
    let kind = Kind::try_from(byte)?;
    if !kind.follows(before) {
        return Err(Fault::ORDER);
    }
    if left < kind.body() {
        return Err(Fault::BODY_CUT);
    }
    if kind.limit() <= kind.held(counts) {
        return Err(Fault::TOO_MANY);
    }
    Ok(kind)
}

// Numbers of two and of four bytes, the low byte first.
pub(crate) fn number2(bytes: &[u8], at: usize) -> u16
    requires { at + 2 ≤ length bytes.now }
    ensures { result ≡ two bytes.now at }
{
    u16::from_le_bytes([bytes[at], bytes[at + 1]])
}

pub(crate) fn number4(bytes: &[u8], at: usize) -> u32
    requires { at + 4 ≤ length bytes.now }
    ensures { result ≡ four bytes.now at }
{
    u32::from_le_bytes([bytes[at], bytes[at + 1], bytes[at + 2], bytes[at + 3]])
}

// Numbers go behind the n numbers of a list; how many it has then.
pub(crate) fn put<T: Copy>(numbers: &[T], list: &mut [T], n: usize) -> usize
    requires { n + length numbers.now ≤ length list.old }
    ensures after { list.new ≡ sets list.old n numbers.now }
    ensures count { result ≡ n + length numbers.now }
{
    let end = n + numbers.len();
    list[n..end].copy_from_slice(numbers);
    end
}
