// The row finder as a filter: one request text on standard input, one answer text on standard output.
#![tactic(auto)]

ghost use Rattle.std.specs.Prelude.{◌≡◌, List, ℕ, ◌≤◌, length, take};
ghost use Rattle.reply.specs.Answered.{Shown};

use std::io;
use std::io::Write;

// Answers the whole input, whatever its length, of which the first `read` bytes of the buffer are the first 4,097, or all. The result is
// how many bytes of the space are to be shown: the answer text, or the line of a refusal; the bytes behind them are as before.
fn respond(buffer: &[u8], read: usize, space: &mut [u8]) -> usize
    requires { (length buffer.now ≡ 4097) × (read ≤ 4097) × (52877 ≤ length space.old) }
    ensures { (input : List ℕ) → take 4097 input ≡ take read buffer.now
        → Shown input space.old space.new result }
{
    match answer::answer(&buffer[..read], space) {
        Ok(length) => length,
        Err(_) => 7,
    }
}

// A text has at most 4,096 bytes: one more tells that it is too long. No answer has more than 52,877. A read that fails counts as the end of
// the text; a write that fails ends the program with its error.
fn main(rt: HostRuntime) -> io::Result<()> {
    let mut buffer = [0u8; 4097];
    let mut read = 0;
    let _ended = input::read_full(&mut rt.stdin(), &mut buffer, &mut read);
    let mut space = [0u8; 52877];
    let shown = respond(&buffer, read, &mut space);
    rt.stdout().write_all(&space[..shown])
}
