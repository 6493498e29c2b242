// Standard input.
ghost use Rattle.std.specs.Prelude.{◌<◌, IfOk, OnErr, length, take};
ghost use Rattle.std.specs.Io.KnownBytes.{Consumes, IsAtEnd};
ghost use Rattle.console.specs.Counts.{IsPrefixLen, StandsFirst};

use std::io;
use std::io::Read;

// As much of a case file as settles what is found of it, whatever stands after it: the law `of_file_settled`.
pub const ENOUGH: usize = 4096;

// Reads until the room is full or the input ends: how many bytes. They stand first in the room, and fewer than it holds only at the end. Only a failed
// read is an error; what was read before it stands first in the room.
pub fn read_full<R: Read>(reader: &mut R, room: &mut [u8]) -> io::Result<usize>
    ensures in_bounds { IfOk result (λ n. IsPrefixLen n room.new) }
    ensures bytes { IfOk result (λ n. Consumes (R.remaining reader.old) (R.remaining reader.new) (take n room.new)) }
    ensures end { IfOk result (λ n. n < length room.new → IsAtEnd (R.remaining reader.new)) }
    ensures err { OnErr result (StandsFirst (R.remaining reader.old) (R.remaining reader.new) room.new) }
{
    let mut done: usize = 0;
    while done < room.len() {
        let n = reader.read(&mut room[done..])?;
        if n == 0 {
            break;
        }
        done += n;
    }
    Ok(done)
}

// Reads the whole file, or as much as settles what is found of it: how many bytes. Only a failed read is an error.
pub fn read_file(rt: &impl Input, bytes: &mut [u8; ENOUGH]) -> io::Result<usize>
    ensures { IfOk result (λ n. IsPrefixLen n bytes.new) }
{
    let mut reader = rt.reader();
    read_full(&mut reader, bytes)
}
