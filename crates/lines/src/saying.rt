// A number printed after some bytes.
use std::io;

pub fn say(rt: &impl Print, before: &[u8], x: u32) -> io::Result<()> {
    rt.write_all(before)?;
    rt.print(x)
}

pub fn say_count(rt: &impl Print, before: &[u8], n: usize) -> io::Result<()> {
    rt.write_all(before)?;
    rt.print(n)
}
