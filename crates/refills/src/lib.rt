// One cell set, or a box of cells refilled, with one byte: the masks of the bricks concerned are made anew, and the total moves as their ones do.
#![tactic(auto)]

ghost use Rattle.std.specs.Prelude.{◌+◌, ◌*◌, ◌^◌, ◌≤◌, ◌<◌, ◌≡◌, Ok, length};
ghost use Rattle.std.specs.Int.Count.{ones};
ghost use Rattle.cells.specs.Fills.{Filled};
ghost use Rattle.grids.specs.Grid.{shape, size};
ghost use Rattle.bricks.specs.Sums.{digit, bit};
ghost use Rattle.bricks.specs.Bricks.{bricks, mask_at, bit_there};
ghost use Rattle.bricks.specs.Rows.{brick_number, RowOfBricks};
ghost use Rattle.refills.specs.Boxes.{corner, brick_of};
ghost use Rattle.refills.specs.Rows.{Natural, InCounts, wide, rows, row_slot, BoxFilled, box_sum, row_agreed, box_agreed, Looked};
ghost use Rattle.refills.specs.Refills.{crossed, box_check, bad_total, Refills, Sets};

use bricks::Slot;
use cells::{Cell, Counts, Refusal};
use grids::Grid;

// ---- what is tested before memory is read

// Whether the low corner is above the high one on some axis.
fn is_crossed(low: Cell, high: Cell) -> bool
    ensures { result ≡ crossed low high }
{
    high.x < low.x || high.y < low.y || high.z < low.z
}

// Refusals 2, 3, 6, 5, then 14.
#[tactic(auto, using(cells::proofs::Checks::then_assoc), unfolding(crate::specs::Refills::box_check))]
fn check_box(n: Counts, bytes: usize, lent: usize, low: Cell, high: Cell) -> Result<(), Refusal>
    ensures { result ≡ box_check n bytes lent low high }
{
    bricks::check_bricks(n, bytes, lent)?;
    grids::check_ends(n, low, high)?;
    if is_crossed(low, high) {
        return Err(Refusal::Corners);
    }
    Ok(())
}

// A cell of the grid as a corner.
fn corner_of(c: Cell) -> Slot
    requires { Natural c }
    ensures { result ≡ corner c }
{
    Slot {
        x: c.x as usize,
        y: c.y as usize,
        z: c.z as usize,
    }
}

// ---- a box and its rows

// The corner's brick.
fn brick_of(c: Slot) -> Slot
    ensures { result ≡ brick_of c }
{
    Slot {
        x: c.x / 4,
        y: c.y / 4,
        z: c.z / 4,
    }
}

// A box by its two corners, low and high, both included: of cells, or of bricks.
#[derive(Clone, Copy)]
struct Corners {
    lo: Slot,
    hi: Slot,
    ghost ordered: { (lo.x ≤ hi.x) × (lo.y ≤ hi.y) × (lo.z ≤ hi.z) },
    ghost small: { (hi.x < 1024) × (hi.y < 1024) × (hi.z < 1024) },
}

impl Corners {
    // The bricks of its cells, which are a box too.
    fn bricks(self) -> Corners
        ensures { (result.lo ≡ brick_of self.lo) × (result.hi ≡ brick_of self.hi) }
    {
        Corners {
            lo: brick_of(self.lo),
            hi: brick_of(self.hi),
        }
    }

    // How long a row is.
    fn width(self) -> usize
        ensures { result ≡ wide self.lo self.hi }
    {
        self.hi.x - self.lo.x + 1
    }

    // How many rows there are.
    fn rows(self) -> usize
        ensures { (result ≡ rows self.lo self.hi) × (result ≤ 1048576) }
    {
        (self.hi.y - self.lo.y + 1) * (self.hi.z - self.lo.z + 1)
    }

    // Where row r starts: the rows lie in y first, then in z.
    fn row(self, r: usize) -> Slot
        requires { r < rows self.lo self.hi }
        ensures { result ≡ row_slot self.lo self.hi r }
    {
        let tall = self.hi.y - self.lo.y + 1;
        Slot {
            x: self.lo.x,
            y: self.lo.y + r % tall,
            z: self.lo.z + r / tall,
        }
    }
}

// ---- a box of bytes

// Puts a byte into `long` cells from number `from` on.
fn fill_row(cells: &mut [u8], from: usize, long: usize, byte: u8)
    requires { from + long ≤ length cells.old }
    ensures { Filled (λ _. byte) from (from + long) cells.old cells.new }
{
    cells[from..from + long].fill(byte);
}

// Puts a byte into each cell of a box, row by row.
fn fill_box(n: Counts, cells: &mut [u8], c: Corners, byte: u8)
    requires { InCounts n c.hi × (length cells.old ≡ size n) }
    ensures { BoxFilled n c.lo c.hi (λ _. byte) (rows c.lo c.hi) cells.old cells.new }
{
    let wide = c.width();
    for r in 0..c.rows() {
        let from = bricks::index_in(n, c.row(r));
        fill_row(cells, from, wide, byte);
    }
}

// ---- a box of masks

// Puts the masks of a box of bricks anew, row by row; answers their ones.
fn fill_brick_box(g: Grid, masks: &mut [u64], c: Corners) -> u64
    requires { InCounts (bricks g.counts) c.hi × (size (bricks g.counts) ≤ length masks.old) }
    ensures value { result ≡ box_sum (bricks g.entry.counts) c.lo c.hi (λ k. ones (mask_at g.entry.counts g.entry.cells.now k)) (rows c.lo c.hi) }
    ensures box_filled { BoxFilled (bricks g.entry.counts) c.lo c.hi (mask_at g.entry.counts g.entry.cells.now) (rows c.lo c.hi) masks.old masks.new }
{
    let wide = c.width();
    let mut found = 0u64;
    for r in 0..c.rows() {
        found += bricks::fill_masks(g, masks, c.row(r), wide);
    }
    found
}

// The ones of the masks of `long` bricks in a row along x, the first of them `at`, if they are those of the bytes.
fn same_masks(g: Grid, masks: &[u64], at: Slot, long: usize) -> Option<u64>
    requires { RowOfBricks g.counts at long × (size (bricks g.counts) ≤ length masks.now) }
    ensures { result ≡ row_agreed g.entry.counts (brick_number g.entry.counts at) long g.entry.cells.now masks.now }
{
    let from = bricks::index_in(bricks::bricks_of(g.counts), at);
    let mut found = 0u64;
    for d in 0..long {
        let mask = bricks::mask_of(g, Slot { x: at.x + d, ..at });
        if masks[from + d] != mask {
            return None;
        }
        found += bricks::ones(mask);
    }
    Some(found)
}

// The ones of the masks of a box of bricks, if they are those of the bytes.
fn same_box(g: Grid, masks: &[u64], c: Corners) -> Option<u64>
    requires { InCounts (bricks g.counts) c.hi × (size (bricks g.counts) ≤ length masks.now) }
    ensures { result ≡ box_agreed g.entry.counts c.lo c.hi g.entry.cells.now masks.now }
{
    let wide = c.width();
    let mut found = 0u64;
    for r in 0..c.rows() {
        found += same_masks(g, masks, c.row(r), wide)?;
    }
    Some(found)
}

// Whether a total is below the ones of some masks, or above the number of cells.
fn bad_total(total: u64, ones: u64, cells: usize) -> bool
    ensures { result ≡ bad_total total ones cells }
{
    total < ones || (cells as u64) < total
}

// ---- the calls

// Counts and bytes stay apart here, since the bytes are written: a `Grid` lends them to be read. Counts, bytes, masks and total are the call's own parameters.
// Puts a byte into each cell of a box and makes the masks of its bricks anew; the total moves as their ones. Refusal 13.
fn refill_box(
    n: Counts,
    cells: &mut [u8],
    masks: &mut [u64],
    total: u64,
    c: Corners,
    byte: u8,
) -> Result<u64, Refusal>
    requires shaped { shape n (length cells.old) ≡ Ok tt }
    requires inside { InCounts n c.hi × (size (bricks n) ≤ length masks.old) }
    ensures { Looked n c.lo c.hi byte cells.old masks.old total result cells.new masks.new }
{
    let b = c.bricks();
    let old = same_box(Grid { counts: n, cells }, masks, b).ok_or(Refusal::Stale)?;
    if bad_total(total, old, cells.len()) {
        return Err(Refusal::Stale);
    }
    fill_box(n, cells, c, byte);
    let new = fill_brick_box(Grid { counts: n, cells }, masks, b);
    Ok(total - old + new)
}

// The bit of a cell in the mask of its brick.
fn bit_in_brick(c: Slot) -> u64
    ensures { (result ≡ bit_there c.x c.y c.z) × (result < 64) }
{
    (c.x % 4 + 4 * (c.y % 4) + 16 * (c.z % 4)) as u64
}

// The mask with bit b on or off.
#[tactic(auto, using(crate::proofs::Bits::bit_on, crate::proofs::Bits::bit_off, crate::proofs::Bits::power_within))]
fn with_bit(mask: u64, b: u64, on: bool) -> u64
    requires { b < 64 }
    ensures { result + digit (bit mask b) * 2 ^ b ≡ mask + digit on * 2 ^ b }
{
    let p = 1u64 << b;
    let full = mask | p;
    if on { full } else { full - p }
}

// Puts a byte at one cell and its bit into the mask of its brick; the total moves as the mask's ones. Refusal 13.
fn set_cell(
    n: Counts,
    cells: &mut [u8],
    masks: &mut [u64],
    total: u64,
    at: Slot,
    byte: u8,
) -> Result<u64, Refusal>
    requires shaped { shape n (length cells.old) ≡ Ok tt }
    requires inside { InCounts n at × (size (bricks n) ≤ length masks.old) }
    ensures { Looked n at at byte cells.old masks.old total result cells.new masks.new }
{
    let b = brick_of(at);
    let k = bricks::index_in(bricks::bricks_of(n), b);
    let mask = bricks::mask_of(Grid { counts: n, cells }, b);
    if masks[k] != mask {
        return Err(Refusal::Stale);
    }
    let old = bricks::ones(mask);
    if bad_total(total, old, cells.len()) {
        return Err(Refusal::Stale);
    }
    let turned = with_bit(mask, bit_in_brick(at), 1 < byte);
    cells[bricks::index_in(n, at)] = byte;
    masks[k] = turned;
    Ok(total - old + bricks::ones(turned))
}

// Gives each cell of a box, both corners included, one byte; answers the total that follows.
pub fn refill(
    n: Counts,
    cells: &mut [u8],
    masks: &mut [u64],
    total: u64,
    low: Cell,
    high: Cell,
    byte: u8,
) -> Result<u64, Refusal>
    ensures { Refills n low high byte cells.old masks.old total result cells.new masks.new }
{
    check_box(n, cells.len(), masks.len(), low, high)?;
    let c = Corners {
        lo: corner_of(low),
        hi: corner_of(high),
    };
    refill_box(n, cells, masks, total, c, byte)
}

// Gives one cell one byte; answers the total that follows.
pub fn set(
    n: Counts,
    cells: &mut [u8],
    masks: &mut [u64],
    total: u64,
    cell: Cell,
    byte: u8,
) -> Result<u64, Refusal>
    ensures { Sets n cell byte cells.old masks.old total result cells.new masks.new }
{
    check_box(n, cells.len(), masks.len(), cell, cell)?;
    set_cell(n, cells, masks, total, corner_of(cell), byte)
}
