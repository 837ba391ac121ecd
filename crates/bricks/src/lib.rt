// Solid counts that are kept: masks of bricks, a bit for each cell, and how many ones they have together. The build.
#![tactic(auto)]

ghost use Rattle.std.specs.Prelude.{◌+◌, ◌*◌, ◌≤◌, ◌<◌, ◌≡◌, true, length, get_or};
ghost use Rattle.std.specs.Int.Count.{ones};
ghost use Rattle.cells.specs.Fills.{Filled};
ghost use Rattle.grids.specs.Grid.{solid, size, index};
ghost use Rattle.grids.specs.Inside.{Counted};
ghost use Rattle.bricks.specs.Sums.{sum, digit, number_of};
ghost use Rattle.bricks.specs.Bricks.{bricks, solid_at, mask_of, mask_at};
ghost use Rattle.bricks.specs.Rows.{solid_from, brick_number, RowOfBricks};
ghost use Rattle.bricks.specs.Builds.{bricks_check, Builds};

use cells::{Counts, Refusal};
use grids::Grid;

// A cell of the grid, or a brick, by natural numbers: the README's slot, and so no `Each`.
#[derive(Clone, Copy)]
pub struct Slot {
    pub x: usize,
    pub y: usize,
    pub z: usize,
}

// ---- bits

// The number of ones of a mask.
pub fn ones(mask: u64) -> u64
    ensures { (result ≡ ones mask) × (result ≤ 64) }
{
    mask.count_ones() as u64
}

// 1 for a solid byte, else 0.
fn one(b: u8) -> u64
    ensures { (result ≡ digit (solid b)) × (result ≤ 1) }
{
    (1 < b) as u64
}

// The bits of four cells that stand in a row, the first at from.
#[tactic(auto, unfolding(crate::specs::Sums::sum))]
fn four_bits(cells: &[u8], from: usize) -> u64
    requires { from + 4 ≤ length cells.now }
    ensures { result ≡ number_of (λ d. solid (get_or cells.now (from + d) 0)) 4 }
{
    one(cells[from])
        + 2 * one(cells[from + 1])
        + 4 * one(cells[from + 2])
        + 8 * one(cells[from + 3])
}

// The bits of up to four cells that stand in a row, the first at from. Beside `four_bits`, which is quicker with no loop: most rows are whole.
#[tactic(auto, using(crate::proofs::Sums::sum_none))]
fn few_bits(cells: &[u8], from: usize, long: usize) -> u64
    requires { (from + long ≤ length cells.now) × (long ≤ 4) }
    ensures { result ≡ number_of (λ d. solid (get_or cells.now (from + d) 0)) long }
{
    let mut bits = 0u64;
    for d in 0..long {
        bits += one(cells[from + d]) << d;
    }
    bits
}

// The bits of four cells in a row along x, the first of them c; those beyond the grid 0.
fn row_bits(g: Grid, c: Slot) -> u64
    requires { c.x < g.counts.nx }
    ensures { result ≡ number_of (λ d. solid_at g.entry.counts g.entry.cells.now (c.x + d) c.y c.z) 4 }
{
    let n = g.counts;
    if n.ny as usize <= c.y || n.nz as usize <= c.z {
        return 0;
    }
    let from = index_in(n, c);
    let long = n.nx as usize - c.x;
    if long < 4 {
        return few_bits(g.cells, from, long);
    }
    four_bits(g.cells, from)
}

// ---- bricks

// The mask of the brick (bx, by, bz), which may reach beyond the grid, row by row. Beside `whole_mask`: the build took 1.5 times as long as plain C
// with a test of each row, and 0.85 times where whole bricks have none. Three numbers and no Slot: with one, a set took 1.02 times as long, and the
// loop of `whole_mask` in it read a stride from the stack.
#[tactic(auto, using(crate::proofs::Sums::sum_none))]
fn part_mask(g: Grid, bx: usize, by: usize, bz: usize) -> u64
    requires { (4 * bx < g.counts.nx) × (4 * by < g.counts.ny) × (4 * bz < g.counts.nz) }
    ensures { result ≡ mask_of g.entry.counts g.entry.cells.now bx by bz }
{
    let mut mask = 0u64;
    for r in 0..16 {
        let first = Slot {
            x: 4 * bx,
            y: 4 * by + r % 4,
            z: 4 * bz + r / 4,
        };
        mask += row_bits(g, first) << (4 * r);
    }
    mask
}

// The mask of a brick that lies in the grid whole, its first byte at from, the next row and the next layer so many bytes on: no row of it is tested.
#[tactic(auto, using(crate::proofs::Sums::sum_none))]
fn whole_mask(cells: &[u8], from: usize, row: usize, layer: usize) -> u64
    requires { from + row * 3 + layer * 3 + 4 ≤ length cells.now }
    ensures { result ≡ number_of (solid_from cells.now from row layer) 64 }
{
    let mut mask = 0u64;
    for r in 0..16 {
        mask += four_bits(cells, from + row * (r % 4) + layer * (r / 4)) << (4 * r);
    }
    mask
}

// Yes only where the brick lies in the grid whole; where the answer is no, its rows are tested.
fn is_whole(n: Counts, b: Slot) -> bool
    requires starts_inside { (4 * b.x < n.nx) × (4 * b.y < n.ny) × (4 * b.z < n.nz) }
    requires counted { Counted n }
    ensures { result ≡ true → (4 * b.x + 4 ≤ n.nx) × (4 * b.y + 4 ≤ n.ny) × (4 * b.z + 4 ≤ n.nz) }
{
    4 * b.x + 4 <= n.nx as usize && 4 * b.y + 4 <= n.ny as usize && 4 * b.z + 4 <= n.nz as usize
}

// The mask of a brick.
pub fn mask_of(g: Grid, b: Slot) -> u64
    requires { (4 * b.x < g.counts.nx) × (4 * b.y < g.counts.ny) × (4 * b.z < g.counts.nz) }
    ensures { result ≡ mask_of g.entry.counts g.entry.cells.now b.x b.y b.z }
{
    let n = g.counts;
    if is_whole(n, b) {
        let first = Slot {
            x: 4 * b.x,
            y: 4 * b.y,
            z: 4 * b.z,
        };
        let row = n.nx as usize;
        return whole_mask(g.cells, index_in(n, first), row, row * n.ny as usize);
    }
    part_mask(g, b.x, b.y, b.z)
}

// How many bricks stand along each axis.
pub fn bricks_of(n: Counts) -> Counts
    requires { Counted n }
    ensures { result ≡ bricks n }
{
    Counts {
        nx: (n.nx + 3) / 4,
        ny: (n.ny + 3) / 4,
        nz: (n.nz + 3) / 4,
    }
}

// How many bricks there are.
fn brick_count(n: Counts) -> usize
    requires { Counted n }
    ensures { result ≡ size (bricks n) }
{
    let b = bricks_of(n);
    b.nx as usize * b.ny as usize * b.nz as usize
}

// The number of a cell among the bytes, or of a brick among the masks: x fastest, then y, then z.
pub fn index_in(n: Counts, c: Slot) -> usize
    requires small { (n.nx ≤ 1024) × (n.ny ≤ 1024) × (n.nz ≤ 1024) }
    requires inside { (c.x < n.nx) × (c.y < n.ny) × (c.z < n.nz) }
    ensures { result ≡ index n c.x c.y c.z }
{
    c.x + n.nx as usize * (c.y + n.ny as usize * c.z)
}

// Puts the masks of `long` bricks in a row along x, the first of them `at`, into the lent memory; answers their ones.
pub fn fill_masks(g: Grid, masks: &mut [u64], at: Slot, long: usize) -> u64
    requires { RowOfBricks g.counts at long × (size (bricks g.counts) ≤ length masks.old) }
    ensures value { (result ≡ sum (λ i. ones (mask_at g.entry.counts g.entry.cells.now (brick_number g.entry.counts at + i))) long)
        × (result ≤ 64 * long) }
    ensures filled { Filled (mask_at g.entry.counts g.entry.cells.now) (brick_number g.entry.counts at) (brick_number g.entry.counts at + long)
        masks.old masks.new }
{
    let from = index_in(bricks_of(g.counts), at);
    let mut found = 0u64;
    for d in 0..long {
        let mask = mask_of(g, Slot { x: at.x + d, ..at });
        masks[from + d] = mask;
        found += ones(mask);
    }
    found
}

// Puts the masks of all bricks into the front of the lent memory, row by row; answers their ones.
fn fill_all(g: Grid, masks: &mut [u64]) -> u64
    requires { size (bricks g.counts) ≤ length masks.old }
    ensures value { result ≡ sum (λ k. ones (mask_at g.entry.counts g.entry.cells.now k)) (size (bricks g.entry.counts)) }
    ensures filled { Filled (mask_at g.entry.counts g.entry.cells.now) 0 (size (bricks g.entry.counts)) masks.old masks.new }
{
    let b = bricks_of(g.counts);
    let wide = b.nx as usize;
    let tall = b.ny as usize;
    let mut found = 0u64;
    for r in 0..tall * b.nz as usize {
        let at = Slot {
            x: 0,
            y: r % tall,
            z: r / tall,
        };
        found += fill_masks(g, masks, at, wide);
    }
    found
}

// Refusals 2, 3, then 6.
#[tactic(auto, unfolding(crate::specs::Builds::bricks_check))]
pub fn check_bricks(n: Counts, bytes: usize, lent: usize) -> Result<(), Refusal>
    ensures { result ≡ bricks_check n bytes lent }
{
    grids::shape(n, bytes)?;
    if lent < brick_count(n) {
        return Err(Refusal::Room);
    }
    Ok(())
}

// The masks of all bricks, at the front of the lent memory; answers the total of solid cells.
pub fn build(n: Counts, cells: &[u8], masks: &mut [u64]) -> Result<u64, Refusal>
    ensures { Builds n cells.now masks.old result masks.new }
{
    check_bricks(n, cells.len(), masks.len())?;
    Ok(fill_all(Grid { counts: n, cells }, masks))
}
