// Texts: characters compared and copied.
ghost use Rattle.std.specs.Prelude.{◌≡◌, ◌+◌, ◌<◌, ◌≤◌, length, take};
ghost use Rattle.records.specs.Lists.{same_word, concat_map};
ghost use Rattle.records.specs.View.{span, text_at, lengths};
ghost use Rattle.records.specs.Rules.{list_limit};
ghost use Rattle.records.specs.Working.Puts.{CharsPut, TextsWithin};
ghost use Rattle.records.specs.Working.Standard.{HoldsJoin, PartAdded};

use crate::fields::{first, second, word};

// Whether the characters from place p on are w. A place past the end of the slice reads as 0.
pub fn text_is(chars: &[u32], p: u32, w: &[u32]) -> bool
    ensures { result ≡ same_word (span chars.now p (length w.now)) w.now }
{
    text_from(chars, p as usize, w)
}

// The same from a place that is counted wide.
fn text_from(chars: &[u32], at: usize, w: &[u32]) -> bool
    requires { at + length w.now ≤ 0x7FFF_FFFF_FFFF_FFFF }
    ensures { result ≡ same_word (span chars.now at (length w.now)) w.now }
{
    if chars.len() < at + w.len() {
        text_past(chars, at, w)
    } else {
        &chars[at..at + w.len()] == w
    }
}

// The same where w reaches past the end of the slice.
fn text_past(chars: &[u32], at: usize, w: &[u32]) -> bool
    requires { at + length w.now ≤ 0x7FFF_FFFF_FFFF_FFFF }
    ensures { result ≡ same_word (span chars.now at (length w.now)) w.now }
{
    for (i, &x) in w.iter().enumerate() {
        if word(chars, at + i) != x {
            return false;
        }
    }
    true
}

// Characters w from place `at` on.
pub(crate) fn put_text_unchecked(chars: &mut [u32], at: usize, w: &[u32])
    requires { at + length w.now ≤ length chars.old }
    ensures { CharsPut chars.old chars.new at w.now }
{
    for (i, &x) in w.iter().enumerate() {
        chars[at + i] = x;
    }
}

// The characters of a list of terms, counted.
pub(crate) fn joined_length_unchecked(terms: &[u32], list: &[u32]) -> usize
    requires { length list.now ≤ list_limit }
    ensures { result ≡ lengths terms.now list.now }
{
    let mut total: usize = 0;
    for &t in list {
        total += second(terms, t) as usize;
    }
    total
}

// Whether n characters from place `at` on are those from place `from` on.
fn spans_agree(chars: &[u32], at: usize, from: usize, n: usize) -> bool
    requires counted { at + n ≤ 0x7FFF_FFFF_FFFF_FFFF }
    requires within { from + n ≤ length chars.now }
    ensures { result ≡ same_word (span chars.now at n) (span chars.now from n) }
{
    text_from(chars, at, &chars[from..from + n])
}

// Whether the characters from place p on are the joined texts of a list of terms.
pub(crate) fn joined_is_unchecked(terms: &[u32], chars: &[u32], p: u32, list: &[u32]) -> bool
    requires short { length list.now ≤ list_limit }
    requires within { TextsWithin terms.now (length chars.now) list.now }
    ensures { let w = concat_map (text_at terms.now chars.now) list.now in result ≡ same_word (span chars.now p (lengths terms.now list.now)) w }
{
    let mut at = p as usize;
    for &t in list {
        let from = first(terms, t) as usize;
        let n = second(terms, t) as usize;
        if !spans_agree(chars, at, from, n) {
            return false;
        }
        at += n;
    }
    true
}

// n characters from place `from` on, copied to place `at`, which is above them.
fn copy_text(chars: &mut [u32], from: usize, n: usize, at: usize)
    requires below { from + n ≤ at }
    requires room { at + n ≤ length chars.old }
    ensures { CharsPut chars.old chars.new at (span chars.old from n) }
{
    for i in 0..n {
        chars[at + i] = chars[from + i];
    }
}

// Part i of a list added to the word held: `held` characters from place `to` on, above all texts. The standard joins from the left,
// `(str.++ (str.++ a b) c)`: two words at a time, the word held and the next part. The word grows where it stands. Answers how many
// characters are held then.
fn add_part_unchecked(
    terms: &[u32],
    chars: &mut [u32],
    list: &[u32],
    i: usize,
    to: usize,
    held: usize,
) -> usize
    requires texts_within { TextsWithin terms.now to list.now }
    requires list_in_bounds { to + lengths terms.now list.now ≤ length chars.old }
    requires i_in_bounds { i < length list.now }
    requires holds_join { HoldsJoin terms.now chars.old (take i list.now) to held }
    ensures { PartAdded terms.now chars.old chars.new list.now to i result }
{
    let part = list[i];
    let from = first(terms, part) as usize;
    let next = second(terms, part) as usize;
    copy_text(chars, from, next, to + held);
    held + next
}

// The joined texts of a list of terms from place `to` on, which is above them all: each part added to the word held, which is "" first.
pub(crate) fn put_joined_unchecked(terms: &[u32], chars: &mut [u32], list: &[u32], to: usize)
    requires texts_within { TextsWithin terms.now to list.now }
    requires list_in_bounds { to + lengths terms.now list.now ≤ length chars.old }
    ensures { CharsPut chars.old chars.new to (concat_map (text_at terms.now chars.old) list.now) }
{
    let mut held: usize = 0;
    for i in 0..list.len() {
        held = add_part_unchecked(terms, chars, list, i, to, held);
    }
}
