// Refusals: a number, the list that it is about, and a place.
ghost use Rattle.std.specs.Prelude.{◌≡◌};
ghost use Rattle.field.specs.Numbers.{list_at_fault};
ghost use Rattle.field.specs.Refusal.{fault, none};

use crate::{ListNumber, RefusalNumber};

// Number 0, list 0 and place 0: nothing is refused.
#[derive(Clone, Copy)]
pub struct Fault {
    pub number: RefusalNumber,
    pub list: ListNumber,
    pub place: usize,
}

// The refusal numbers: those of the table, from 20 on the reader's, and from 26 on the writer's. Then the lists of a call.
// They are numbers and no enum: C is handed them, `at` answers for any number (the law `list_none`), and there is one table of them.
impl Fault {
    pub const MODULUS: RefusalNumber = 1;

    pub const FIRST_COUNT: RefusalNumber = 2;

    pub const FIRST_TERM: RefusalNumber = 3;

    pub const SECOND_COUNT: RefusalNumber = 4;

    pub const SECOND_TERM: RefusalNumber = 5;

    pub const SKELETON_COUNT: RefusalNumber = 6;

    pub const SKELETON_KEY: RefusalNumber = 7;

    pub const POINTS_COUNT: RefusalNumber = 8;

    pub const POINT_NUMBER: RefusalNumber = 9;

    pub const OUTPUT_SHORT: RefusalNumber = 10;

    pub const WORK_SHORT: RefusalNumber = 11;

    pub const NO_GOOD_POINT: RefusalNumber = 12;

    pub const NO_SOLUTION: RefusalNumber = 13;

    pub const SEVERAL_SOLUTIONS: RefusalNumber = 14;

    pub const DOES_NOT_DIVIDE: RefusalNumber = 15;

    pub const INVERSE_OF_ZERO: RefusalNumber = 16;

    pub const OPERAND: RefusalNumber = 17;

    pub const CEILING_REACHED: RefusalNumber = 18;

    pub const KIND_UNKNOWN: RefusalNumber = 20;

    pub const BODY_CUT: RefusalNumber = 21;

    pub const ORDER: RefusalNumber = 22;

    pub const AFTER_END: RefusalNumber = 23;

    pub const NO_END: RefusalNumber = 24;

    pub const TOO_MANY: RefusalNumber = 25;

    pub const NOT_WRITABLE: RefusalNumber = 26;

    pub const BUFFER_SHORT: RefusalNumber = 27;

    pub const LIST_NONE: ListNumber = 0;

    pub const LIST_FIRST: ListNumber = 1;

    pub const LIST_SECOND: ListNumber = 2;

    pub const LIST_SKELETON: ListNumber = 3;

    pub const LIST_POINTS: ListNumber = 4;

    pub const LIST_OUTPUT: ListNumber = 5;

    pub const LIST_WORK: ListNumber = 6;

    pub fn none() -> Fault
        ensures { result ≡ none }
    {
        Fault {
            number: 0,
            list: Fault::LIST_NONE,
            place: 0,
        }
    }

    pub fn at(number: RefusalNumber, place: usize) -> Fault
        ensures { result ≡ fault number place }
    {
        let list = list_at_fault(number);
        Fault {
            number,
            list,
            place,
        }
    }
}

// The list that a refusal number is about: one function, from which every record has its list.
fn list_at_fault(number: RefusalNumber) -> ListNumber
    ensures { result ≡ list_at_fault number }
{
    match number {
        Fault::FIRST_COUNT | Fault::FIRST_TERM => Fault::LIST_FIRST,
        Fault::SECOND_COUNT | Fault::SECOND_TERM => Fault::LIST_SECOND,
        Fault::SKELETON_COUNT | Fault::SKELETON_KEY => Fault::LIST_SKELETON,
        Fault::POINTS_COUNT | Fault::POINT_NUMBER => Fault::LIST_POINTS,
        Fault::OUTPUT_SHORT => Fault::LIST_OUTPUT,
        Fault::WORK_SHORT => Fault::LIST_WORK,
        _ => Fault::LIST_NONE,
    }
}
