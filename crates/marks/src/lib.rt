// Near marks and their completeness, row by row: into a window goes the largest byte, at each x, of the up to nine rows beside a row; a cell
// of the row is beside a solid one where the window has a byte of 2 or more at x or next to it.
#![tactic(auto)]

ghost use Rattle.std.specs.Prelude.{◌+◌, ◌*◌, ◌^◌, ◌≤◌, ◌<◌, ◌≡◌, ◌&&◌, ◌||◌, Ok, length, get_or};
ghost use Rattle.grids.specs.Grid.{shape, clear, solid};
ghost use Rattle.grids.specs.Marks.{any, marked_byte, marked, Marks, Completes};
ghost use Rattle.cells.specs.Fills.{Filled};
ghost use Rattle.marks.specs.Rows.{starts, in_rows, Within, in_column, Shows, SolidWhere, Framed, beside, mark_for, put_byte, gap_by, gap};

use cells::{Counts, Refusal};
use grids::Grid;

// Where three rows of a layer start, or three layers of a grid.
#[derive(Clone, Copy)]
struct Three {
    low: usize,
    mid: usize,
    high: usize,
}

// Where the rows beside row y of n start, per apart, row 0 at from. At an edge row y is taken twice: the largest byte stays the same.
fn starts(from: usize, per: usize, y: usize, n: usize) -> Three
    requires { (y < n) × (from + per * n < 2 ^ 64) }
    ensures { result ≡ starts from per y n }
{
    Three {
        low: from + per * y.saturating_sub(1),
        mid: from + per * y,
        high: from + per * (y + 1).min(n - 1),
    }
}

// The largest byte at x of three rows.
#[tactic(auto, unfolding(crate::specs::Rows::in_rows))]
fn largest_in(cells: &[u8], rows: Three, x: usize) -> u8
    requires { Within rows (x + 1) (length cells.now) }
    ensures { solid result ≡ in_rows cells.now rows x }
{
    cells[rows.low + x]
        .max(cells[rows.mid + x])
        .max(cells[rows.high + x])
}

// The byte that belongs where b stands, m being the largest byte beside.
fn byte_for(b: u8, m: u8) -> u8
    ensures { result ≡ mark_for b (solid m) }
{
    if 2 <= b {
        return b;
    }
    if 2 <= m { 1 } else { 0 }
}

// The largest byte beside, where b is clear.
fn missed(b: u8, m: u8) -> u8
    ensures { solid result ≡ (clear b && solid m) }
{
    if b == 0 { m } else { 0 }
}

// The window of a row of nx cells: at each x the largest byte of up to nine rows beside it, with a byte at each end that is not solid. nx stands before
// the bytes: so the compiler sees that a byte written is not nx. Behind them, marking took 6 % more instructions in rows of 1,024 cells, 65 % in rows of 64.
#[derive(Drop)]
struct Window {
    nx: usize,
    bytes: [u8; 1026],
    ghost framed: { Framed nx bytes },
}

impl Window {
    // The window of a row of no cells.
    fn new() -> Window {
        Window {
            nx: 0,
            bytes: [0u8; 1026],
        }
    }

    // Makes it a window for nx cells: the byte past the last is not solid, as byte 0 never is.
    fn frame(&mut self, nx: usize)
        requires { nx ≤ 1024 }
        ensures { self.new.nx ≡ nx }
    {
        self.nx = nx;
        self.bytes[nx + 1] = 0;
    }

    // Puts three rows into the window, in place of what was there.
    fn set_rows(&mut self, cells: &[u8], rows: Three)
        requires { Within rows self.old.nx (length cells.now) }
        ensures shows { Shows (in_rows cells.now rows) self.old.nx self.old.bytes self.new.bytes }
        ensures long { self.new.nx ≡ self.old.nx }
    {
        let nx = self.nx;
        let bytes = &mut self.bytes;
        for at in 0..nx {
            bytes[at + 1] = largest_in(cells, rows, at);
        }
    }

    // Takes three more rows into the window. Beside `set_rows`: one function over a closure is no plainer, and a window of zeros first is a pass more.
    fn raise_rows(&mut self, cells: &[u8], rows: Three)
        requires { Within rows self.old.nx (length cells.now) }
        ensures shows { Shows (λ x. solid (get_or self.old.bytes (x + 1) 0) || in_rows cells.now rows x) self.old.nx self.old.bytes self.new.bytes }
        ensures long { self.new.nx ≡ self.old.nx }
    {
        let nx = self.nx;
        let bytes = &mut self.bytes;
        for x in 0..nx {
            bytes[x + 1] = bytes[x + 1].max(largest_in(cells, rows, x));
        }
    }

    // Makes it the window of row r.
    fn look(&mut self, g: Grid, r: usize)
        requires { r < g.counts.ny * g.counts.nz }
        ensures solid_where { SolidWhere (in_column g.entry.counts g.entry.cells.now r) g.entry.counts.nx self.new.bytes }
        ensures long { self.new.nx ≡ g.entry.counts.nx }
    {
        let nx = g.counts.nx as usize;
        let ny = g.counts.ny as usize;
        let y = r % ny;
        let layers = starts(0, nx * ny, r / ny, g.counts.nz as usize);
        let below = starts(layers.low, nx, y, ny);
        let here = starts(layers.mid, nx, y, ny);
        let above = starts(layers.high, nx, y, ny);
        self.frame(nx);
        self.set_rows(g.cells, below);
        self.raise_rows(g.cells, here);
        self.raise_rows(g.cells, above);
    }

    // The largest byte at x or next to it.
    fn largest(&self, x: usize) -> u8
        requires { x < self.now.nx }
        ensures { solid result ≡ beside self.now.bytes x }
    {
        self.bytes[x].max(self.bytes[x + 1]).max(self.bytes[x + 2])
    }

    // Marks the row of cells that starts at from.
    fn put(&self, cells: &mut [u8], from: usize)
        requires { from + self.now.nx ≤ length cells.old }
        ensures { Filled (put_byte self.now.bytes cells.old from) from (from + self.now.nx) cells.old cells.new }
    {
        for x in 0..self.nx {
            cells[from + x] = byte_for(cells[from + x], self.largest(x));
        }
    }

    // Whether a clear cell of the row that starts at from is beside a solid one. By the largest byte, and not by `any`: a loop with no way out goes
    // over many cells at once.
    #[tactic(auto, using(crate::proofs::Windows::no_gap_yet, crate::proofs::Windows::one_cell_more))]
    fn gap_by(&self, cells: &[u8], from: usize) -> bool
        requires { from + self.now.nx ≤ length cells.now }
        ensures { result ≡ gap_by self.now.bytes cells.now from self.now.nx }
    {
        let mut most = 0u8;
        for x in 0..self.nx {
            most = most.max(missed(cells[from + x], self.largest(x)));
        }
        2 <= most
    }
}

// Marks row r. Where bytes are lent to be written, they stay apart from their counts: a `Grid` lends them to be read.
fn mark_row(n: Counts, cells: &mut [u8], r: usize, window: &mut Window)
    requires shaped { shape n (length cells.old) ≡ Ok tt }
    requires row_inside { r < n.ny * n.nz }
    ensures { Filled (marked_byte 3 n cells.old) (n.nx * r) (n.nx * r + n.nx) cells.old cells.new }
{
    window.look(Grid { counts: n, cells }, r);
    window.put(cells, (n.nx as usize) * r);
}

// Marks every row. Marking changes no cell's solidity, so each row is as if it were the first.
fn mark_rows(n: Counts, cells: &mut [u8])
    requires { shape n (length cells.old) ≡ Ok tt }
    ensures { cells.new ≡ marked 3 n cells.old }
{
    let rows = (n.ny as usize) * (n.nz as usize);
    let mut window = Window::new();
    for r in 0..rows {
        mark_row(n, cells, r, &mut window);
    }
}

// Whether a clear cell of row r touches a solid one.
fn gap_in_row(g: Grid, r: usize, window: &mut Window) -> bool
    requires { r < g.counts.ny * g.counts.nz }
    ensures { result ≡ any (λ x. gap g.entry.counts g.entry.cells.now (g.entry.counts.nx * r + x)) g.entry.counts.nx }
{
    window.look(g, r);
    window.gap_by(g.cells, (g.counts.nx as usize) * r)
}

// Whether a clear cell touches a solid one. A loop, and not `any`: of a closure that changes the window a proof learns nothing.
fn has_gap(g: Grid) -> bool
    ensures { result ≡ any (gap g.entry.counts g.entry.cells.now) (length g.entry.cells.now) }
{
    let rows = (g.counts.ny as usize) * (g.counts.nz as usize);
    let mut window = Window::new();
    for r in 0..rows {
        if gap_in_row(g, r, &mut window) {
            return true;
        }
    }
    false
}

// Marks the cells beside solid ones near and the others clear, in place.
pub fn mark(n: Counts, cells: &mut [u8]) -> Result<(), Refusal>
    ensures { Marks n cells.old result cells.new }
{
    grids::shape(n, cells.len())?;
    mark_rows(n, cells);
    Ok(())
}

// Whether the marks are complete: no clear cell touches a solid one.
#[tactic(auto, unfolding(grids::specs::Marks::completeness))]
pub fn complete(n: Counts, cells: &[u8]) -> Result<bool, Refusal>
    ensures { Completes n cells.now result }
{
    grids::shape(n, cells.len())?;
    Ok(!has_gap(Grid { counts: n, cells }))
}
