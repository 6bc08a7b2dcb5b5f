// A reader over one chain: the words of the cells, and the number of the cell it stands at.
ghost use Rattle.std.specs.Prelude.{◌≡◌};
ghost use Rattle.records.specs.View.{cells_view};
ghost use Rattle.held.specs.Links.{link_in};

use records::fields;

#[derive(Drop)]
pub struct Chain<'a> {
    pub cells: &'a [u32],
    pub at: u32,
}

// What one step along a chain gives.
#[derive(Clone, Copy)]
pub enum Link {
    // the value, the second value, the next
    Cell(u32, u32, u32),
    // 0 ends a chain
    End,
    // the number is past the count
    Absent,
    // the next is neither 0 nor above the cell's own number
    Back,
}

// The work, on the slice and the number: what stands at cell c of n.
pub fn link_at(cells: &[u32], c: u32, n: usize) -> Link
    ensures { result ≡ link_in (cells_view cells.now n) c }
{
    if c == 0 {
        return Link::End;
    }
    if n < fields::wide(c) {
        return Link::Absent;
    }
    let next = fields::next(cells, c);
    if next != 0 && next <= c {
        return Link::Back;
    }
    Link::Cell(fields::value(cells, c), fields::other(cells, c), next)
}

// One step of the reader: it is taken apart, and the work is done on the slice and the number.
pub fn step<'a>(r: Chain<'a>, n: usize) -> Link
    ensures { result ≡ link_in (cells_view r.entry.cells.now n) r.entry.at }
{
    link_at(r.cells, r.at, n)
}

// A reader over the chain from c on, and its first step. Whoever calls this holds the slice and the number alone.
pub fn next_link(cells: &[u32], c: u32, n: usize) -> Link
    ensures { result ≡ link_in (cells_view cells.now n) c }
{
    step(Chain { cells, at: c }, n)
}
