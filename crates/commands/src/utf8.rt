// Characters in UTF-8.
ghost use Rattle.std.specs.Prelude.{true, ◌&&◌, ◌≡◌, ◌+◌, ◌-◌, ◌<◌, ◌≤◌, length, drop, get_or};
ghost use Rattle.commands.specs.Utf8.{is_next, six_more, is_scalar, shaped, char_by, char_of, decode};
ghost use Rattle.commands.specs.Working.Readings.{char_is, Listed};
ghost use Rattle.commands.specs.Commands.{line_limit};

use records::rules::is_char;

// The byte at i, and 0 past the end.
fn byte(s: &[u8], i: usize) -> u8
    ensures { result ≡ get_or s.now i 0 }
{
    if i < s.len() { s[i] } else { 0 }
}

fn is_next(b: u8) -> bool
    ensures { result ≡ is_next b }
{
    matches!(b, 0x80..0xC0)
}

// x followed by the six bits of a byte.
fn six_more(x: u32, b: u8) -> u32
    requires { x < 0x4_0000 }
    ensures { result ≡ six_more x b }
{
    64 * x + u32::from(b.saturating_sub(0x80))
}

// Whether a text can have x: a character of the store, and no surrogate.
fn is_scalar(x: u32) -> bool
    ensures { result ≡ is_scalar x }
{
    is_char(x) && (x < 0xD800 || 0xE000 <= x)
}

// The character of number x in k bytes, where it needs as many and a text can have it.
fn shape(k: usize, least: u32, x: u32) -> Option<(usize, u32)>
    ensures { char_is result ≡ shaped k least true x }
{
    (least <= x && is_scalar(x)).then_some((k, x))
}

fn two_bytes(a: u8, b: u8) -> Option<(usize, u32)>
    requires { 0xC0 ≤ a }
    ensures { char_is result ≡ shaped 2 0x80 (is_next b) (six_more (a - 0xC0) b) }
{
    if !is_next(b) {
        return None;
    }
    shape(2, 0x80, six_more(u32::from(a - 0xC0), b))
}

fn three_bytes(a: u8, b: u8, c: u8) -> Option<(usize, u32)>
    requires { 0xE0 ≤ a }
    ensures { char_is result ≡ shaped 3 0x800 (is_next b && is_next c) (six_more (six_more (a - 0xE0) b) c) }
{
    if !is_next(b) || !is_next(c) {
        return None;
    }
    let x = six_more(u32::from(a - 0xE0), b);
    shape(3, 0x800, six_more(x, c))
}

fn four_bytes(a: u8, b: u8, c: u8, d: u8) -> Option<(usize, u32)>
    requires { 0xF0 ≤ a }
    ensures { char_is result ≡ shaped 4 0x1_0000 (is_next b && is_next c && is_next d) (six_more (six_more (six_more (a - 0xF0) b) c) d) }
{
    if !is_next(b) || !is_next(c) || !is_next(d) {
        return None;
    }
    let x = six_more(u32::from(a - 0xF0), b);
    let y = six_more(x, c);
    shape(4, 0x1_0000, six_more(y, d))
}

// The character that starts with byte a, before b, c and d.
fn char_by(a: u8, b: u8, c: u8, d: u8) -> Option<(usize, u32)>
    ensures { char_is result ≡ char_by a b c d }
{
    match a {
        0..0x80 => Some((1, u32::from(a))),
        0xC0..0xE0 => two_bytes(a, b),
        0xE0..0xF0 => three_bytes(a, b, c),
        0xF0..0xF8 => four_bytes(a, b, c, d),
        _ => None,
    }
}

// The character that starts at a place.
fn char_at(s: &[u8], at: usize) -> Option<(usize, u32)>
    requires { at < line_limit }
    ensures { char_is result ≡ char_of (drop at s.now) }
{
    let a = byte(s, at);
    let b = byte(s, at + 1);
    let c = byte(s, at + 2);
    let d = byte(s, at + 3);
    char_by(a, b, c, d)
}

// The characters of bytes, into a list with room for one to a byte.
pub(crate) fn read_chars(s: &[u8], list: &mut [u32]) -> Option<usize>
    requires in_line { length s.now ≤ line_limit }
    requires room { length s.now ≤ length list.old }
    ensures { Listed (decode s.now) result list.new }
{
    let mut at: usize = 0;
    let mut n: usize = 0;
    while at < s.len() {
        let (k, x) = char_at(s, at)?;
        list[n] = x;
        n += 1;
        at += k;
    }
    Some(n)
}
