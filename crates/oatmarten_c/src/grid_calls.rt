// Marking, completeness and layers for C.
ghost use Rattle.std.specs.Prelude.{length};
ghost use Rattle.structs.specs.Inputs.{as_counts};
ghost use Rattle.oatmarten.specs.GridCalls.{FlatMarks, FlatCompletes, FlatGivesLayerPart};

use structs::{OatComplete, OatCounts, OatPart, OatVerdict};

// Marks the near cells of a grid, in place.
#[unsafe(no_mangle)]
pub extern "C" fn oat_mark(n: OatCounts, cells: &mut [u8]) -> OatVerdict
    ensures { FlatMarks (as_counts n) cells.old result cells.new }
{
    oatmarten::oat_mark(n, cells)
}

// Whether no clear cell touches a solid one.
#[unsafe(no_mangle)]
pub extern "C" fn oat_complete(n: OatCounts, cells: &[u8]) -> OatComplete
    ensures { FlatCompletes (as_counts n) cells.now result }
{
    oatmarten::oat_complete(n, cells)
}

// Where layer z lies in the caller's bytes.
#[unsafe(no_mangle)]
pub extern "C" fn oat_layer(n: OatCounts, cells: &[u8], z: i32) -> OatPart
    ensures { FlatGivesLayerPart (as_counts n) (length cells.now) z result }
{
    oatmarten::oat_layer(n, cells, z)
}
