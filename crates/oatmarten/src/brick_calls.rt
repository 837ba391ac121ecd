// Solid counts that are kept, for C: the build, one cell set, a box refilled.
ghost use Rattle.structs.specs.Inputs.{as_cell, as_counts};
ghost use Rattle.oatmarten.specs.BrickCalls.{FlatBuilds, FlatSets, FlatRefills};

use structs::{OatCell, OatCounts, OatTally};

// The masks of all bricks, and the total.
pub fn oat_build(n: OatCounts, cells: &[u8], masks: &mut [u64]) -> OatTally
    ensures { FlatBuilds (as_counts n) cells.now masks.old result masks.new }
{
    bricks::build(n.into(), cells, masks).into()
}

// One cell gets one byte.
pub fn oat_set(
    n: OatCounts,
    cells: &mut [u8],
    masks: &mut [u64],
    total: u64,
    at: OatCell,
    byte: u8,
) -> OatTally
    ensures { FlatSets (as_counts n) (as_cell at) byte cells.old masks.old total result cells.new masks.new }
{
    refills::set(n.into(), cells, masks, total, at.into(), byte).into()
}

// Each cell of a box, both corners included, gets one byte.
pub fn oat_refill(
    n: OatCounts,
    cells: &mut [u8],
    masks: &mut [u64],
    total: u64,
    low: OatCell,
    high: OatCell,
    byte: u8,
) -> OatTally
    ensures { FlatRefills (as_counts n) (as_cell low) (as_cell high) byte cells.old masks.old total result
        cells.new masks.new }
{
    refills::refill(n.into(), cells, masks, total, low.into(), high.into(), byte).into()
}
