// One line: its numbers or its text.
use lines::lending::rest;
use lines::put;
use lines::reading::read_line;

// The characters of a line's text, from 1 on: the rest of the line after one space. Answers how many there are.
fn read_text(line: &[u8], n: &mut [u32]) -> usize {
    let text = rest(line, 2);
    for (i, &b) in text.iter().enumerate() {
        put(n, i + 1, u32::from(b));
    }
    text.len()
}

// The commands K and I have a text, the others numbers.
pub fn read(l: u8, line: &[u8], n: &mut [u32]) -> usize {
    match l {
        b'K' | b'I' => read_text(line, n),
        _ => read_line(line, n).count,
    }
}
