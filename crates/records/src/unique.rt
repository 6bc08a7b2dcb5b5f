// Names are unique (a part of refusal 2). A variable that passes is put into three tables: `hashes` has a hash of its name, by number.
// Variables whose hashes leave one remainder form a chain: `heads` has the highest of each, by remainder, and `links` the next lower, by
// number; 0 ends a chain. So a name is looked for in one chain only.
ghost use Rattle.std.specs.Prelude.{◌≡◌, true, ◌&&◌, ◌+◌, ◌<◌, ◌≤◌, length, get_or};
ghost use Rattle.records.specs.Store.{is_variable, text};
ghost use Rattle.records.specs.View.{read_in};
ghost use Rattle.records.specs.Rules.{text_rule, named, name_rule};
ghost use Rattle.records.specs.Working.Hashes.{hash_from, hash, Hashed, Tables, Passing};

use crate::make::has_text;
use crate::rules::text_ok;
use crate::{Kind, State, fields};

fn text_hash(w: &[u32]) -> u32
    ensures { result ≡ hash_from 1 w.now }
{
    let mut h: usize = 1;
    for &x in w {
        h = (69069 * h + h / 65536 + fields::wide(x)) % 4294967291;
    }
    h as u32
}

fn name_hash(terms: &[u32], chars: &[u32], c: State, t: u32) -> u32
    requires { (c.chars ≤ length chars.now) × (is_variable (read_in terms.now chars.now c) t ≡ true) × (text_rule (read_in terms.now chars.now c) t ≡ true) }
    ensures { result ≡ hash (read_in terms.now chars.now c) t }
{
    let p = fields::wide(fields::first(terms, t));
    let n = fields::wide(fields::second(terms, t));
    text_hash(&chars[p..p + n])
}

// Whether variable u has t's name; m is the hash of t.
fn is_named(terms: &[u32], chars: &[u32], c: State, hashes: &[u32], m: u32, t: u32, u: u32) -> bool
    requires { let s = read_in terms.now chars.now c in (c.chars ≤ length chars.now) × (u < length hashes.now) × Hashed s m t × Hashed s (get_or hashes.now u 0) u }
    ensures { let s = read_in terms.now chars.now c in result ≡ named (text s t) s u }
{
    if hashes[u as usize] != m {
        return false;
    }
    let p = fields::wide(fields::first(terms, t));
    let n = fields::wide(fields::second(terms, t));
    has_text(terms, chars, u, Kind::Variable, &chars[p..p + n])
}

// t's name has a character, and no lower variable has it; m is the hash of t.
fn name_ok(
    terms: &[u32],
    chars: &[u32],
    c: State,
    hashes: &[u32],
    links: &[u32],
    heads: &[u32; 64],
    m: u32,
    t: u32,
) -> bool
    requires { let s = read_in terms.now chars.now c in (c.chars ≤ length chars.now) × Hashed s m t × Tables s hashes.now links.now heads.now t }
    ensures { result ≡ name_rule (read_in terms.now chars.now c) t }
{
    if fields::second(terms, t) == 0 {
        return false;
    }
    let mut u = heads[(m % 64) as usize];
    while u != 0 {
        if is_named(terms, chars, c, hashes, m, t, u) {
            return false;
        }
        u = links[u as usize];
    }
    true
}

// Variable t; where it passes, it is put into the tables.
pub(crate) fn variable_ok(
    terms: &[u32],
    chars: &[u32],
    c: State,
    hashes: &mut [u32],
    links: &mut [u32],
    heads: &mut [u32; 64],
    t: u32,
) -> bool
    requires { let s = read_in terms.now chars.now c in (c.chars ≤ length chars.now) × (is_variable s t ≡ true) × Tables s hashes.old links.old heads.old t }
    ensures { let s = read_in terms.now chars.now c in Passing s (text_rule s t && name_rule s t) hashes.new links.new heads.new t result }
{
    if !text_ok(terms, c, t) {
        return false;
    }
    let m = name_hash(terms, chars, c, t);
    if !name_ok(terms, chars, c, hashes, links, heads, m, t) {
        return false;
    }
    let at = (m % 64) as usize;
    hashes[t as usize] = m;
    links[t as usize] = heads[at];
    heads[at] = t;
    true
}
