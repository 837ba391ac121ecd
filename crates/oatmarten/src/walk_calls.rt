// The first-hit calls for C, and the trail of the adaptive walk.
ghost use Rattle.walks.specs.declared.Walker.TheVariants.{Plain, Adaptive};
ghost use Rattle.trails.specs.Trails.{AdaptiveCells};
ghost use Rattle.structs.specs.Inputs.{as_cell, as_counts, as_start, as_manner};
ghost use Rattle.oatmarten.specs.LineCalls.{ListsByRule};
ghost use Rattle.oatmarten.specs.WalkCalls.{FindsByRule, FlatFinds, FlatAdaptiveCells, FlatFindsTouching};

use cells::{Manner, Refusal};
use structs::{OatCell, OatCounts, OatHit, OatListed, OatManner, start_of};
use walks::FirstHit;

// The first hit of the plain walk.
pub fn oat_plain(n: OatCounts, cells: &[u8], p: OatCell, q: OatCell, how: OatManner) -> OatHit
    ensures { FlatFinds Plain how (as_counts n) cells.now (as_cell p) (as_cell q) result }
{
    plain(n, cells, p, q, how).into()
}

// What the plain walk finds, or 12 where no rule is named.
fn plain(
    n: OatCounts,
    cells: &[u8],
    p: OatCell,
    q: OatCell,
    how: OatManner,
) -> Result<FirstHit, Refusal>
    ensures { FindsByRule Plain how (as_counts n) cells.now (as_cell p) (as_cell q) result }
{
    let how = Manner::try_from(how)?;
    hits::first_plain(n.into(), cells, p.into(), q.into(), how)
}

// The first hit of the adaptive walk.
pub fn oat_adaptive(n: OatCounts, cells: &[u8], p: OatCell, q: OatCell, how: OatManner) -> OatHit
    ensures { FlatFinds Adaptive how (as_counts n) cells.now (as_cell p) (as_cell q) result }
{
    adaptive(n, cells, p, q, how).into()
}

// What the adaptive walk finds, or 12 where no rule is named. Apart from `plain`, as the two walks are (DECISIONS 47).
fn adaptive(
    n: OatCounts,
    cells: &[u8],
    p: OatCell,
    q: OatCell,
    how: OatManner,
) -> Result<FirstHit, Refusal>
    ensures { FindsByRule Adaptive how (as_counts n) cells.now (as_cell p) (as_cell q) result }
{
    let how = Manner::try_from(how)?;
    hits::first_adaptive(n.into(), cells, p.into(), q.into(), how)
}

// The cells on which the adaptive walk stands.
pub fn oat_adaptive_cells(
    n: OatCounts,
    cells: &[u8],
    p: OatCell,
    q: OatCell,
    how: OatManner,
    out: &mut [i32],
) -> OatListed
    ensures { FlatAdaptiveCells how (as_counts n) cells.now (as_cell p) (as_cell q) out.old result out.new }
{
    adaptive_cells(n, cells, p, q, how, out).into()
}

// The list of those cells, or 12 where no rule is named.
fn adaptive_cells(
    n: OatCounts,
    cells: &[u8],
    p: OatCell,
    q: OatCell,
    how: OatManner,
    out: &mut [i32],
) -> Result<u32, Refusal>
    ensures { ListsByRule how.rule (λ a. AdaptiveCells (as_manner how) (as_counts n) cells.now (as_cell p) (as_cell q) out.old a out.new)
        out.old result out.new }
{
    let how = Manner::try_from(how)?;
    trails::adaptive_cells(n.into(), cells, p.into(), q.into(), how, out)
}

// The first hit along the touching line, the start tested or not by a number.
pub fn oat_touching(n: OatCounts, cells: &[u8], p: OatCell, q: OatCell, start: u32) -> OatHit
    ensures { FlatFindsTouching (as_start start) (as_counts n) cells.now (as_cell p) (as_cell q) result }
{
    touching::first_touching(n.into(), cells, p.into(), q.into(), start_of(start)).into()
}
