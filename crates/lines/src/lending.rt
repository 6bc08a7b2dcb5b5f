// The slices of a store as they are lent, and how much of a slice is.
ghost use Rattle.std.specs.Prelude.{◌≡◌, ◌≤◌, length, min, take};

// The five slices of a store as they are lent to a call: terms, cells, characters, reasons and keys.
pub type Lent<'a> = (
    &'a mut [u32],
    &'a mut [u32],
    &'a mut [u32],
    &'a mut [u32],
    &'a mut [u32],
);

// How many words of each slice are lent; of a shorter slice all.
#[derive(Clone, Copy)]
pub struct Lens {
    pub terms: usize,
    pub cells: usize,
    pub chars: usize,
    pub reasons: usize,
    pub keys: usize,
}

impl Lens {
    // Each slice whole.
    pub const WHOLE: Lens = Lens {
        terms: usize::MAX,
        cells: usize::MAX,
        chars: usize::MAX,
        reasons: usize::MAX,
        keys: usize::MAX,
    };
}

pub fn least(a: usize, b: usize) -> usize
    ensures { result ≤ b }
{
    a.min(b)
}

// n, or the length of a shorter slice.
pub fn part<T>(n: usize, s: &[T]) -> usize
    ensures within { result ≤ length s.now }
    ensures taken { result ≡ length (take result s.now) }
    ensures least { result ≡ min n (length s.now) }
{
    n.min(s.len())
}

// The first n of a slice, or a shorter one whole.
pub fn front<T>(s: &[T], n: usize) -> &[T] {
    &s[..part(n, s)]
}

pub fn front_mut<T>(s: &mut [T], n: usize) -> &mut [T]
    ensures { result.now ≡ take n s.old }
{
    let e = part(n, s);
    &mut s[..e]
}

// What follows them.
pub fn rest<T>(s: &[T], n: usize) -> &[T] {
    &s[n.min(s.len())..]
}
