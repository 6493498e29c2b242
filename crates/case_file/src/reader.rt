// Reading a case file: record by record, up to the end record or the first fault.
ghost use Rattle.std.specs.Prelude.{◌≡◌};
ghost use Rattle.case_file.specs.Reading.{refused, read_one, read as read_of};
ghost use Rattle.field.specs.Refusal.{StandsFor};
ghost use Rattle.case_file.specs.Handed.{contents, Gives, counted, refused_counts, contained, refused_contents};
ghost use Rattle.case_file.specs.Kinds.{kind_byte};
ghost use Rattle.case_file.specs.Reader.Adding.{Ready, Adds};

use crate::record::{self, Kind};
use crate::{Contents, Counts, Keys, PointNumbers, Terms};
use field::{Fault, MOST_KEYS, MOST_POINT_NUMBERS, MOST_TERMS, RefusalNumber};

// The four arrays stay four parameters: were they lent in a struct, each function would have to promise besides that its references stay the same.
// Zeros, with counts 0: what stands before the first record.
fn emptied(
    first: &mut Terms,
    second: &mut Terms,
    skeleton: &mut Keys,
    points: &mut PointNumbers,
) -> Counts
    ensures { Gives (refused 0 0) (counted result) first.new second.new skeleton.new points.new }
{
    *first = [0; MOST_TERMS];
    *second = [0; MOST_TERMS];
    *skeleton = [0; MOST_KEYS];
    *points = [0; MOST_POINT_NUMBERS];
    Counts {
        next: 0,
        modulus: 0,
        first: 0,
        second: 0,
        skeleton: 0,
        points: 0,
    }
}

// A refusal leaves zeros.
fn refused(
    number: RefusalNumber,
    place: usize,
    first: &mut Terms,
    second: &mut Terms,
    skeleton: &mut Keys,
    points: &mut PointNumbers,
) -> Fault
    ensures { Gives (refused number place) (refused_counts result) first.new second.new skeleton.new points.new }
{
    emptied(first, second, skeleton, points);
    Fault::at(number, place)
}

// The record of this kind, whose body begins at the offset, goes to its list.
fn with_record(
    bytes: &[u8],
    kind: Kind,
    at: usize,
    counts: Counts,
    first: &mut Terms,
    second: &mut Terms,
    skeleton: &mut Keys,
    points: &mut PointNumbers,
) -> Counts
    requires { Ready bytes.now (kind_byte kind) at (counted counts) }
    ensures { Adds bytes.now (kind_byte kind) at (counted counts) (counted result) first.old second.old skeleton.old
        points.old first.new second.new skeleton.new points.new }
{
    let mut next = counts;
    match kind {
        Kind::Modulus => next.modulus = record::number2(bytes, at),
        Kind::First => {
            next.first = record::put(&[record::number4(bytes, at)], first, counts.first);
        }
        Kind::Second => {
            next.second = record::put(&[record::number4(bytes, at)], second, counts.second);
        }
        Kind::Skeleton => {
            next.skeleton = record::put(&[record::number2(bytes, at)], skeleton, counts.skeleton);
        }
        Kind::Point => {
            let y = record::number2(bytes, at);
            let z = record::number2(bytes, at + 2);
            let w = record::number2(bytes, at + 4);
            next.points = record::put(&[y, z, w], points, counts.points);
        }
        // The contract rules it out.
        Kind::End => {}
    }
    next
}

// The case at the start of the bytes, and the offset after its end record.
pub fn read_one_into(
    bytes: &[u8],
    first: &mut Terms,
    second: &mut Terms,
    skeleton: &mut Keys,
    points: &mut PointNumbers,
) -> Result<Counts, Fault>
    ensures { StandsFor refused_counts counted
        (λ r. Gives (read_one bytes.now) r first.new second.new skeleton.new points.new) result }
{
    let mut counts = emptied(first, second, skeleton, points);
    let mut before = None;
    let mut at: usize = 0;
    // Records have several lengths, so no range and no iterator of a slice has these steps.
    while at < bytes.len() {
        let start = at + 1;
        let kind = match record::tested(before, bytes[at], counts, bytes.len() - start) {
            Ok(kind) => kind,
            Err(number) => return Err(refused(number, at, first, second, skeleton, points)),
        };
        if kind == Kind::End {
            counts.next = start;
            return Ok(counts);
        }
        counts = with_record(bytes, kind, start, counts, first, second, skeleton, points);
        before = Some(kind);
        at = start + kind.body();
    }
    Err(refused(Fault::NO_END, at, first, second, skeleton, points))
}

// A case file: one case, and nothing after it. The first 4,096 bytes settle the answer, so that a program need read no more.
pub fn read_into(
    bytes: &[u8],
    first: &mut Terms,
    second: &mut Terms,
    skeleton: &mut Keys,
    points: &mut PointNumbers,
) -> Result<Counts, Fault>
    ensures { StandsFor refused_counts counted
        (λ r. Gives (read_of bytes.now) r first.new second.new skeleton.new points.new) result }
{
    let counts = read_one_into(bytes, first, second, skeleton, points)?;
    let end = counts.next;
    if end < bytes.len() {
        return Err(refused(Fault::AFTER_END, end, first, second, skeleton, points));
    }
    Ok(counts)
}

// The same in one value.
pub fn read(bytes: &[u8]) -> Result<Contents, Fault>
    ensures { StandsFor refused_contents contained (λ r. r ≡ contents (read_of bytes.now)) result }
{
    let mut first = [0; MOST_TERMS];
    let mut second = [0; MOST_TERMS];
    let mut skeleton = [0; MOST_KEYS];
    let mut points = [0; MOST_POINT_NUMBERS];
    let counts = read_into(bytes, &mut first, &mut second, &mut skeleton, &mut points)?;
    Ok(Contents {
        modulus: counts.modulus,
        first,
        first_count: counts.first,
        second,
        second_count: counts.second,
        skeleton,
        skeleton_count: counts.skeleton,
        points,
        points_count: counts.points,
    })
}
