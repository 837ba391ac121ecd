// The first-hit calls for C, and the trail of the adaptive walk.
ghost use Rattle.walks.specs.declared.Walker.TheVariants.{Plain, Adaptive};
ghost use Rattle.structs.specs.Inputs.{as_cell, as_counts, as_start};
ghost use Rattle.oatmarten.specs.WalkCalls.{FlatFinds, FlatAdaptiveCells, FlatFindsTouching};

use structs::{OatCell, OatCounts, OatHit, OatListed, OatManner};

// The first hit of the plain walk.
#[unsafe(no_mangle)]
pub extern "C" fn oat_plain(
    n: OatCounts,
    cells: &[u8],
    p: OatCell,
    q: OatCell,
    how: OatManner,
) -> OatHit
    ensures { FlatFinds Plain how (as_counts n) cells.now (as_cell p) (as_cell q) result }
{
    oatmarten::oat_plain(n, cells, p, q, how)
}

// The first hit of the adaptive walk.
#[unsafe(no_mangle)]
pub extern "C" fn oat_adaptive(
    n: OatCounts,
    cells: &[u8],
    p: OatCell,
    q: OatCell,
    how: OatManner,
) -> OatHit
    ensures { FlatFinds Adaptive how (as_counts n) cells.now (as_cell p) (as_cell q) result }
{
    oatmarten::oat_adaptive(n, cells, p, q, how)
}

// The cells on which the adaptive walk stands.
#[unsafe(no_mangle)]
pub extern "C" fn oat_adaptive_cells(
    n: OatCounts,
    cells: &[u8],
    p: OatCell,
    q: OatCell,
    how: OatManner,
    out: &mut [i32],
) -> OatListed
    ensures { FlatAdaptiveCells how (as_counts n) cells.now (as_cell p) (as_cell q) out.old result out.new }
{
    oatmarten::oat_adaptive_cells(n, cells, p, q, how, out)
}

// The first hit along the touching line, the start tested or not by a number.
#[unsafe(no_mangle)]
pub extern "C" fn oat_touching(
    n: OatCounts,
    cells: &[u8],
    p: OatCell,
    q: OatCell,
    start: u32,
) -> OatHit
    ensures { FlatFindsTouching (as_start start) (as_counts n) cells.now (as_cell p) (as_cell q) result }
{
    oatmarten::oat_touching(n, cells, p, q, start)
}
