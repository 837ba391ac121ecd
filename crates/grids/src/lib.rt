// The grid: its shape, its layers, which ends lie in it (refusal 5), and the way between cell and byte. Its definitions (specs/) are those of near
// marks and their completeness too; their calls are in `marks`.
#![tactic(auto)]

ghost use Rattle.std.specs.Prelude.{Ok, ◌≡◌, ◌<◌, length};
ghost use Rattle.cells.specs.Checks.{◌then◌};
ghost use Rattle.cells.specs.declared.End.TheVariants.{P, Q};
ghost use Rattle.grids.specs.Grid.{count_check, bad_count, shape, Shapes, bad_layer, layer_check, GivesLayerPart, GivesLayer, byte_index, cell_at};
ghost use Rattle.grids.specs.Inside.{off_axis, grid_check, walk_check, Good, Counted, Enclosed};

use cells::{Axis, Cell, Counts, End, Refusal};

// The part of the slice that is a layer: where it starts and how long it is, as C is told it. `layer` gives the part itself.
#[derive(Clone, Copy)]
pub struct LayerPart {
    pub start: usize,
    pub long: usize,
}

// Counts with the bytes that make a grid of them.
#[derive(Clone, Copy)]
pub struct Grid<'a> {
    pub counts: Counts,
    pub cells: &'a [u8],
    ghost shaped: { shape counts (length cells.now) ≡ Ok tt },
}

fn bad_count(n: u32) -> bool
    ensures { result ≡ bad_count n }
{
    n == 0 || 1024 < n
}

// Each count 1 to 1,024, or refusal 2 with the first axis that is not.
pub fn check_counts(n: Counts) -> Result<(), Refusal>
    ensures { result ≡ count_check n }
{
    if bad_count(n.nx) {
        return Err(Refusal::Count(Axis::X));
    }
    if bad_count(n.ny) {
        return Err(Refusal::Count(Axis::Y));
    }
    if bad_count(n.nz) {
        return Err(Refusal::Count(Axis::Z));
    }
    Ok(())
}

// Counts and bytes that make a grid: refusal 2, then 3.
#[tactic(auto, unfolding(crate::specs::Grid::shape))]
pub fn shape(n: Counts, bytes: usize) -> Result<(), Refusal>
    ensures { Shapes n bytes result }
{
    check_counts(n)?;
    if bytes != (n.nx as usize) * (n.ny as usize) * (n.nz as usize) {
        return Err(Refusal::Bytes);
    }
    Ok(())
}

fn bad_layer(n: Counts, z: i32) -> bool
    ensures { result ≡ bad_layer n z }
{
    z < 0 || n.nz <= z as u32
}

// Refusals 2, 3, then 4.
#[tactic(auto, unfolding(crate::specs::Grid::layer_check))]
fn layer_check(n: Counts, bytes: usize, z: i32) -> Result<(), Refusal>
    ensures { result ≡ layer_check n bytes z }
{
    shape(n, bytes)?;
    if bad_layer(n, z) {
        return Err(Refusal::Layer);
    }
    Ok(())
}

// Where the layer z lies in the slice, or why there is none: the partner of `layer`.
#[tactic(auto, unfolding(crate::specs::Grid::layer_part))]
pub fn layer_part(n: Counts, cells: &[u8], z: i32) -> Result<LayerPart, Refusal>
    ensures { GivesLayerPart n (length cells.now) z result }
{
    layer_check(n, cells.len(), z)?;
    let row = n.nx as usize;
    let long = row * (n.ny as usize);
    let start = (z as usize) * long;
    Ok(LayerPart { start, long })
}

// The layer z: the caller's own nx·ny bytes, or the empty part where it is refused.
#[tactic(auto, unfolding(crate::specs::Grid::layer))]
pub fn layer(n: Counts, cells: &[u8], z: i32) -> &[u8]
    ensures { GivesLayer n cells.entry z result }
{
    match layer_part(n, cells, z) {
        Ok(part) => &cells[part.start..part.start + part.long],
        Err(_) => &cells[..0],
    }
}

// ---- ends in the grid

// Whether a coordinate lies outside an axis; in this form one comparison of the machine.
fn off_axis(v: i32, count: u32) -> bool
    requires { Good count }
    ensures { result ≡ off_axis v count }
{
    v < 0 || 0 <= v - count as i32
}

// An end inside the grid, or refusal 5 with the first axis on which it is not. That the counts passed their test is asked of them alone: where a box or a
// walk is tested there is no `Grid` yet.
fn check_end(e: End, n: Counts, c: Cell) -> Result<(), Refusal>
    requires { Counted n }
    ensures { result ≡ grid_check e n c }
{
    if off_axis(c.x, n.nx) {
        return Err(Refusal::OffGrid(e, Axis::X));
    }
    if off_axis(c.y, n.ny) {
        return Err(Refusal::OffGrid(e, Axis::Y));
    }
    if off_axis(c.z, n.nz) {
        return Err(Refusal::OffGrid(e, Axis::Z));
    }
    Ok(())
}

// Both ends, P before Q.
pub fn check_ends(n: Counts, p: Cell, q: Cell) -> Result<(), Refusal>
    requires { Counted n }
    ensures { result ≡ (grid_check P n p then grid_check Q n q) }
{
    check_end(End::P, n, p)?;
    check_end(End::Q, n, q)
}

// Refusals 2, 3, then 5.
#[tactic(auto, unfolding(crate::specs::Inside::walk_check))]
pub fn check_walk(n: Counts, bytes: usize, p: Cell, q: Cell) -> Result<(), Refusal>
    ensures { result ≡ walk_check n bytes p q }
{
    shape(n, bytes)?;
    check_ends(n, p, q)
}

// ---- cells and bytes

// The place of a cell's byte.
pub fn index_of(n: Counts, c: Cell) -> u32
    requires { Enclosed n c }
    ensures { result ≡ byte_index n c }
{
    let x = c.x as u32;
    let y = c.y as u32;
    let z = c.z as u32;
    x + n.nx * (y + n.ny * z)
}

// The cell of the byte at i.
pub fn cell_at(n: Counts, i: u32) -> Cell
    requires { Good n.nx × Good n.ny × (i < 1073741824) }
    ensures { result ≡ cell_at n i }
{
    let x = (i % n.nx) as i32;
    let y = (i / n.nx % n.ny) as i32;
    let z = (i / (n.nx * n.ny)) as i32;
    Cell { x, y, z }
}
