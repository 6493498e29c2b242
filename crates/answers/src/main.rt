// Reads a stream of case files from standard input, each behind its length, and prints for each what the program `candidate` prints.
#![tactic(auto)]

ghost use Rattle.std.specs.Prelude.{◌≡◌, ◌+◌, ◌*◌, ◌<◌, IfOk, OnErr, take};
ghost use Rattle.std.specs.Io.KnownBytes.{Consumes};
ghost use Rattle.console.specs.Counts.{IsPrefixLen, StandsFirst};

use console::input;
use std::io;
use std::io::Read;

// The most bytes of a file that has a length of two bytes.
const LONGEST: usize = 65535;

// A length has two bytes, the low byte first.
fn length_of(low: u8, high: u8) -> usize
    ensures { (result ≡ low + 256 * high) × (result < 65536) }
{
    (low as usize) + 256 * (high as usize)
}

// Reads the file that has this room, and answers it: how many bytes of it there were. Only a failed read or write is an error; what was read before it
// stands first in the room.
fn answer<R: Read>(rt: &impl Print, reader: &mut R, room: &mut [u8]) -> io::Result<usize>
    ensures in_bounds { IfOk result (λ n. IsPrefixLen n room.new) }
    ensures bytes { IfOk result (λ n. Consumes (R.remaining reader.old) (R.remaining reader.new) (take n room.new)) }
    ensures err { OnErr result (StandsFirst (R.remaining reader.old) (R.remaining reader.new) room.new) }
{
    let n = input::read_full(reader, room)?;
    console::answer::print_candidate_of(rt, &room[..n])?;
    Ok(n)
}

// Answers the next file of the stream: whether there was one, which standard input alone decides.
fn answer_next<R: Read>(rt: &impl Print, reader: &mut R) -> io::Result<bool> {
    let mut length = [0; 2];
    if input::read_full(reader, &mut length)? < 2 {
        return Ok(false);
    }
    let n = length_of(length[0], length[1]);
    let mut bytes = [0; LONGEST];
    answer(rt, reader, &mut bytes[..n])?;
    Ok(true)
}

// A proved loop has to end, and nothing says that the input does: the turns are counted, up to a number that no run reaches.
fn main(rt: HostRuntime) -> io::Result<()> {
    let mut reader = rt.reader();
    for _ in 0..u64::MAX {
        if !answer_next(&rt, &mut reader)? {
            break;
        }
    }
    Ok(())
}
