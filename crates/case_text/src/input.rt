// What a program is given to read.
ghost use Rattle.std.specs.Prelude.{◌≤◌, IfOk, length};

use std::io;
use std::io::Read;

// Reads until the room is full or the input ends: how much was read. A read that fails is handed on as an error, and nothing is said then of the room.
pub fn read_full(rt: &impl Input, room: &mut [u8]) -> io::Result<usize>
    ensures { IfOk result (λ n. n ≤ length room.new) }
{
    let mut reader = rt.reader();
    let mut done = 0;
    while done < room.len() {
        let n = reader.read(&mut room[done..])?;
        if n == 0 {
            return Ok(done);
        }
        done += n;
    }
    Ok(done)
}
