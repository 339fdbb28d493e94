// The start of an input, up to the length of a buffer.

#![tactic(auto)]

ghost use Rattle.std.specs.Prelude.{◌≤◌, ◌<◌, length, take, OnOk};
ghost use Rattle.std.specs.Io.KnownBytes.{Consumes, IsAtEnd};

use std::io;
use std::io::Read;

// Reads until the buffer is full or the input ends, and stores how many bytes stand at the start of the buffer, also where a read fails: they are
// those that the input began with and has lost. Where they do not fill the buffer and no read failed, nothing is left of the input.
pub fn read_full<R: Read>(reader: &mut R, buffer: &mut [u8], done: &mut usize) -> io::Result<()>
    ensures bound { done.new ≤ length buffer.new }
    ensures bytes { Consumes (R.Read.remaining reader.old) (R.Read.remaining reader.new) (take done.new buffer.new) }
    ensures all { OnOk result (done.new < length buffer.new → IsAtEnd (R.Read.remaining reader.new)) }
{
    let mut read = 0;
    while read < buffer.len() {
        match reader.read(&mut buffer[read..]) {
            Ok(0) => {
                *done = read;
                return Ok(());
            }
            Ok(n) => read += n,
            Err(e) => {
                *done = read;
                return Err(e);
            }
        }
    }
    *done = read;
    Ok(())
}
