// Writing a case file: the modulus and the four lists, record by record, into a lent buffer.
#![tactic(auto, unfolding(crate::specs::Format::kind_of))]

ghost use Rattle.std.specs.Prelude.{◌≡◌, ℕ, [], ◌∷◌, ◌+◌, ◌≤◌, length};
ghost use Rattle.field.specs.Refusal.{Checked, StandsFor};
ghost use Rattle.case_file.specs.Format.{point_kind, today};
ghost use Rattle.case_file.specs.Written.{bytes, packed, records};
ghost use Rattle.case_file.specs.WriteCall.{write_call_of, singles_of, triples, file, write_result, refused_write, written_length, Write};
ghost use Rattle.field.specs.Loops.Putting.{Puts};
ghost use Rattle.case_file.specs.Writer.Cases.{Writable};
ghost use Rattle.case_file.specs.Writer.Length.{file_length, of_case};
ghost use Rattle.case_file.specs.Kinds.{kind_byte};
ghost use Rattle.case_file.specs.Writer.Room.{NumbersFit};

use crate::record::{self, Kind};
use field::{COORDINATES, Case, Fault, MOST_KEYS, MOST_POINT_NUMBERS, MOST_TERMS, Residue};

// The bytes of the file, by how many numbers each list has: of each record its kind byte and its body.
fn file_length(first: usize, second: usize, skeleton: usize, points: usize) -> usize
    requires { Writable first second skeleton points }
    ensures { result ≡ file_length first second skeleton points }
{
    let ends = 1 + Kind::Modulus.body() + 1 + Kind::End.body();
    let terms = (1 + Kind::First.body()) * (first + second);
    let keys = (1 + Kind::Skeleton.body()) * skeleton;
    ends + terms + keys + (1 + Kind::Point.body()) * (points / COORDINATES)
}

// The refusals 26 and 27: of what is lent only the lengths matter.
fn check_lengths(case: &Case<'_>, buffer: usize) -> Result<(), Fault>
    ensures { Checked (of_case case.now buffer) result }
{
    let first = case.first.len();
    let second = case.second.len();
    let skeleton = case.skeleton.len();
    let points = case.points.len();
    let few = (first <= MOST_TERMS)
        & (second <= MOST_TERMS)
        & (skeleton <= MOST_KEYS)
        & (points <= MOST_POINT_NUMBERS)
        & (points % COORDINATES == 0);
    if !few {
        return Err(Fault::at(Fault::NOT_WRITABLE, 0));
    }
    if buffer < file_length(first, second, skeleton, points) {
        return Err(Fault::at(Fault::BUFFER_SHORT, 0));
    }
    Ok(())
}

// A number of a record.
trait Number: Copy {
    // How many bytes it has, and what they say.
    ghost width: { ℕ };

    ghost value: { Self → ℕ };

    // Its bytes, the low one first, go to the offset; the offset after them.
    fn write_bytes(self, at: usize, buffer: &mut [u8]) -> usize
        requires { at + width ≤ length buffer.old }
        ensures { Puts (bytes width (value self)) at result buffer.old buffer.new };
}

impl Number for u16 {
    ghost width = { 2 };

    ghost value = { λ n. n };

    fn write_bytes(self, at: usize, buffer: &mut [u8]) -> usize {
        record::put(&u16::to_le_bytes(self), buffer, at)
    }
}

impl Number for u32 {
    ghost width = { 4 };

    ghost value = { λ n. n };

    fn write_bytes(self, at: usize, buffer: &mut [u8]) -> usize {
        record::put(&u32::to_le_bytes(self), buffer, at)
    }
}

// A record of one number.
fn write_record<T: Number>(kind: Kind, number: T, at: usize, buffer: &mut [u8]) -> usize
    requires { at + (1 + T.width) ≤ length buffer.old }
    ensures { Puts (kind_byte kind ∷ bytes T.width (T.value number)) at result buffer.old buffer.new }
{
    let next = record::put(&[kind as u8], buffer, at);
    number.write_bytes(next, buffer)
}

fn write_point(y: Residue, z: Residue, w: Residue, at: usize, buffer: &mut [u8]) -> usize
    requires { at + 7 ≤ length buffer.old }
    ensures { Puts (point_kind ∷ packed (2 ∷ 2 ∷ 2 ∷ []) (y ∷ z ∷ w ∷ [])) at result buffer.old buffer.new }
{
    let second = write_record(Kind::Point, y, at, buffer);
    let third = z.write_bytes(second, buffer);
    w.write_bytes(third, buffer)
}

// The records of a list.
fn write_numbers<T: Number>(kind: Kind, list: &[T], at: usize, buffer: &mut [u8]) -> usize
    requires { NumbersFit T.width T.value kind list.now at buffer.old }
    ensures { Puts (records today (kind_byte kind) (singles_of T.value list.now)) at result buffer.old buffer.new }
{
    let mut next = at;
    for number in list {
        next = write_record(kind, *number, next, buffer);
    }
    next
}

// The records of the points. No `chunks_exact`: its `next` hands over an option of a reference, which a 32-bit core reads wrongly (bench/handheld).
fn write_points(numbers: &[Residue], at: usize, buffer: &mut [u8]) -> usize
    requires { at + length (records today point_kind (triples numbers.now)) ≤ length buffer.old }
    ensures { Puts (records today point_kind (triples numbers.now)) at result buffer.old buffer.new }
{
    let mut next = at;
    for i in 0..numbers.len() / COORDINATES {
        let first = COORDINATES * i;
        let point = &numbers[first..first + COORDINATES];
        next = write_point(point[0], point[1], point[2], next, buffer);
    }
    next
}

// The file, in a buffer that is long enough; its length.
fn write_case(case: &Case<'_>, buffer: &mut [u8]) -> usize
    requires { length (file (write_call_of case.now buffer.old)) ≤ length buffer.old }
    ensures { Puts (file (write_call_of case.now buffer.old)) 0 result buffer.old buffer.new }
{
    let after_modulus = write_record(Kind::Modulus, case.modulus, 0, buffer);
    let after_first = write_numbers(Kind::First, case.first, after_modulus, buffer);
    let after_second = write_numbers(Kind::Second, case.second, after_first, buffer);
    let after_skeleton = write_numbers(Kind::Skeleton, case.skeleton, after_second, buffer);
    let end = write_points(case.points, after_skeleton, buffer);
    record::put(&[Kind::End as u8], buffer, end)
}

// The file of a case, and its length; or a refusal, which leaves the buffer unchanged. It checks counts only.
pub fn write(case: &Case<'_>, buffer: &mut [u8]) -> Result<usize, Fault>
    ensures { StandsFor refused_write written_length
        (λ r. Write (write_call_of case.now buffer.old) (write_result r buffer.new)) result }
{
    check_lengths(case, buffer.len())?;
    Ok(write_case(case, buffer))
}
