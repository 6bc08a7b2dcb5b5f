// Standard input, read into a slice.
ghost use Rattle.std.specs.Prelude.{◌≤◌, IfOk, length};

use std::io;
use std::io::Read;

// How many bytes of standard input a test program reads; what follows them is not.
pub const TEXT_LIMIT: usize = 65536;

// How many bytes there are, or as many as there is room for; what follows them is not read.
pub fn read_text(rt: &impl Input, text: &mut [u8]) -> io::Result<usize>
    ensures { IfOk result (λ n. n ≤ length text.new) }
{
    let mut input = rt.reader();
    let mut done: usize = 0;
    while done < text.len() {
        let n = input.read(&mut text[done..])?;
        if n == 0 {
            return Ok(done);
        }
        done += n;
    }
    Ok(done)
}
