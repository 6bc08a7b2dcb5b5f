// An answer to its printed line, piece by piece: each piece goes to the start of a small buffer, and its length is answered.
ghost use Rattle.std.specs.Prelude.{◌≡◌, ◌+◌, ◌≤◌, length, nat_abs};
ghost use Rattle.records.specs.Working.Puts.{Written};
ghost use Rattle.records.specs.Make.{decimal_by};
ghost use Rattle.commands.specs.Answers.{number_text, reason_letter, reason_text, is_below, guard_text, answer_name, Piece};

// The number x in decimal from place `at` on, n digits at most: the higher digits first, then the last. Answers the place after it.
fn put_digits(out: &mut [u8], at: usize, n: usize, x: u64) -> usize
    requires { at + n ≤ length out.old }
    ensures { Written out.old out.new at (decimal_by n x) result }
{
    if n == 0 {
        return at;
    }
    if x < 10 {
        out[at] = b'0' + x as u8;
        return at + 1;
    }
    let e = put_digits(out, at, n - 1, x / 10);
    out[e] = b'0' + (x % 10) as u8;
    e + 1
}

// A number after a space.
pub fn put_number(out: &mut [u8; 24], x: u64) -> usize
    ensures { Piece out.new (number_text x) result }
{
    out[0] = b' ';
    put_digits(out, 1, 20, x)
}

fn reason_letter(kind: u32) -> u8
    ensures { result ≡ reason_letter kind }
{
    if kind == 1 { b'a' } else { b'i' }
}

// A reason after a space.
pub fn put_reason(out: &mut [u8; 24], kind: u32, number: u32) -> usize
    ensures { Piece out.new (reason_text (kind, number)) result }
{
    out[0] = b' ';
    out[1] = reason_letter(kind);
    put_digits(out, 2, 20, u64::from(number))
}

// A guard after a space.
pub fn put_guard(out: &mut [u8; 24], g: i32) -> usize
    ensures { Piece out.new (guard_text g) result }
{
    let size = u64::from(g.unsigned_abs());
    out[0] = b' ';
    if g < 0 {
        out[1] = b'-';
        put_digits(out, 2, 20, size)
    } else {
        put_digits(out, 1, 20, size)
    }
}

fn put_bytes(out: &mut [u8], w: &[u8]) -> usize
    requires { length w.now ≤ length out.old }
    ensures { Piece out.new w.now result }
{
    out[..w.len()].copy_from_slice(w);
    w.len()
}

// The word of an answer: 0 done, 1 saturated, 2 conflict, 3 propagate, 4 split, 5 unexpanded, 6 refused, and any other bad.
pub fn put_name(out: &mut [u8; 24], k: u32) -> usize
    ensures { Piece out.new (answer_name k) result }
{
    match k {
        0 => put_bytes(out, b"done"),
        1 => put_bytes(out, b"saturated"),
        2 => put_bytes(out, b"conflict"),
        3 => put_bytes(out, b"propagate"),
        4 => put_bytes(out, b"split"),
        5 => put_bytes(out, b"unexpanded"),
        6 => put_bytes(out, b"refused"),
        _ => put_bytes(out, b"bad"),
    }
}
