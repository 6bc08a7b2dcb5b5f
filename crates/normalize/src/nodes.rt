// Representatives, in a table by class root: 0 where a class has none.
ghost use Rattle.std.specs.Prelude.{◌≡◌, true, ◌≤◌, ◌<◌};
ghost use Rattle.records.specs.Lists.{Every};
ghost use Rattle.records.specs.Store.{within, class_up, root_in};
ghost use Rattle.records.specs.View.{term_limit, terms_view};
ghost use Rattle.records.specs.Working.Audited.{Closed};
ghost use Rattle.records.specs.Working.ClimbEnds.{Ends};
ghost use Rattle.normalize.specs.Working.Nodes.{rank, with_node, with_nodes, node_at, Rooting, Keeps};

use records::{Kind, classes, roots, rules};

// Constants before others.
fn rep_rank(terms: &[u32], n: usize, t: u32) -> u32
    ensures { result ≡ rank (terms_view terms.now n) t }
{
    u32::from(rules::is_a(terms, n, t, Kind::Constant))
}

// One candidate more, of the class of this root.
fn put_node(terms: &[u32], n: usize, t: u32, root: u32, nodes: &mut [u32; 513])
    requires root_in_bounds { root < 513 }
    requires root_of_t { root ≡ root_in (terms_view terms.now n) t }
    ensures { nodes.new ≡ with_node (terms_view terms.now n) t nodes.old }
{
    let at = root as usize;
    let prev = nodes[at];
    if prev == 0 || rep_rank(terms, n, prev) < rep_rank(terms, n, t) {
        nodes[at] = t;
    }
}

fn add_node(terms: &[u32], n: usize, t: u32, nodes: &mut [u32; 513])
    requires n_le_term_limit { n ≤ term_limit }
    requires t_counted { within n t ≡ true }
    requires closed { Closed (class_up (terms_view terms.now n)) n }
    ensures { nodes.new ≡ with_node (terms_view terms.now n) t nodes.old }
{
    let root = classes::root_unchecked(terms, n, t);
    put_node(terms, n, t, root, nodes);
}

// The same as add_node, and the root is kept.
fn keep_node(terms: &[u32], n: usize, t: u32, nodes: &mut [u32; 513], roots: &mut [u32; 513])
    requires n_le_term_limit { n ≤ term_limit }
    requires t_counted { within n t ≡ true }
    requires rooting { Rooting (terms_view terms.now n) n }
    requires ends { Ends (class_up (terms_view terms.now n)) n roots.old }
    ensures { Keeps (terms_view terms.now n) n t nodes.old nodes.new roots.new }
{
    let root = roots::kept_root_unchecked(terms, n, t, roots);
    roots[t as usize] = root;
    put_node(terms, n, t, root, nodes);
}

fn build_few(terms: &[u32], n: usize, known: &[u32], nodes: &mut [u32; 513])
    requires n_le_term_limit { n ≤ term_limit }
    requires every { Every (λ t. within n t ≡ true) known.now }
    requires closed { Closed (class_up (terms_view terms.now n)) n }
    ensures { nodes.new ≡ with_nodes (terms_view terms.now n) known.now nodes.old }
{
    for &t in known {
        add_node(terms, n, t, nodes);
    }
}

// Terms of one class share their way up to its root, and it can be as long as there are terms: so roots are kept by number.
fn build_many(terms: &[u32], n: usize, known: &[u32], nodes: &mut [u32; 513])
    requires n_le_term_limit { n ≤ term_limit }
    requires every { Every (λ t. within n t ≡ true) known.now }
    requires rooting { Rooting (terms_view terms.now n) n }
    ensures { nodes.new ≡ with_nodes (terms_view terms.now n) known.now nodes.old }
{
    let mut roots: [u32; 513] = [0; 513];
    for &t in known {
        keep_node(terms, n, t, nodes, &mut roots);
    }
}

// The candidates of a list, in order. The table of roots is cleared at each call, so few candidates go without.
pub(crate) fn build_node_of(terms: &[u32], n: usize, known: &[u32], nodes: &mut [u32; 513])
    requires n_le_term_limit { n ≤ term_limit }
    requires every { Every (λ t. within n t ≡ true) known.now }
    requires rooting { Rooting (terms_view terms.now n) n }
    ensures { nodes.new ≡ with_nodes (terms_view terms.now n) known.now nodes.old }
{
    if known.len() < 16 {
        build_few(terms, n, known, nodes);
    } else {
        build_many(terms, n, known, nodes);
    }
}

// The representative of t's class, or t itself where the class has none.
pub(crate) fn rep(terms: &[u32], n: usize, nodes: &[u32; 513], t: u32) -> u32
    requires n_le_term_limit { n ≤ term_limit }
    requires t_counted { within n t ≡ true }
    requires closed { Closed (class_up (terms_view terms.now n)) n }
    ensures { result ≡ node_at (terms_view terms.now n) nodes.now t }
{
    let root = classes::root_unchecked(terms, n, t) as usize;
    let r = nodes[root];
    if r == 0 { t } else { r }
}
