// What a program reads, into room that it lends.
#![tactic(auto)]

ghost use Rattle.std.specs.Prelude.{◌<◌, ◌≤◌, OnOk, length, take};
ghost use Rattle.std.specs.Io.KnownBytes.{Consumes, IsAtEnd};

use std::io;
use std::io::Read;

// Reads until the room is full, the input ends or a read fails: how many bytes came, which stand first in the room, and
// whether a read failed.
// By hand: the count beside the result, since the clause `bytes` says what came also where a read failed.
pub fn read_full<R: Read>(input: &mut R, room: &mut [u8]) -> (usize, io::Result<()>)
    ensures bound { result.0 ≤ length room.new }
    ensures bytes { Consumes (R.remaining input.old) (R.remaining input.new) (take result.0 room.new) }
    ensures end { OnOk result.1 (result.0 < length room.new → IsAtEnd (R.remaining input.new)) }
{
    let mut count = 0;
    // By hand: where a read fails, no reading method of std says how many bytes came before it (clause `bytes`).
    while count < room.len() {
        match input.read(&mut room[count..]) {
            Ok(0) => return (count, Ok(())),
            Ok(n) => count += n,
            Err(e) => return (count, Err(e)),
        }
    }
    (count, Ok(()))
}
