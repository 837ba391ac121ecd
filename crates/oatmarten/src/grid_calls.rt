// Marking, completeness and layers for C.
ghost use Rattle.std.specs.Prelude.{length};
ghost use Rattle.structs.specs.Inputs.{as_counts};
ghost use Rattle.oatmarten.specs.GridCalls.{FlatMarks, FlatCompletes, FlatGivesLayerPart};

use structs::{OatComplete, OatCounts, OatPart, OatVerdict};

// Marks the near cells of a grid, in place.
pub fn oat_mark(n: OatCounts, cells: &mut [u8]) -> OatVerdict
    ensures { FlatMarks (as_counts n) cells.old result cells.new }
{
    marks::mark(n.into(), cells).into()
}

// Whether no clear cell touches a solid one.
pub fn oat_complete(n: OatCounts, cells: &[u8]) -> OatComplete
    ensures { FlatCompletes (as_counts n) cells.now result }
{
    marks::complete(n.into(), cells).into()
}

// Where layer z lies in the caller's bytes.
pub fn oat_layer(n: OatCounts, cells: &[u8], z: i32) -> OatPart
    ensures { FlatGivesLayerPart (as_counts n) (length cells.now) z result }
{
    grids::layer_part(n.into(), cells, z).into()
}
