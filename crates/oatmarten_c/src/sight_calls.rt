// The cell of a surveyed point, and the sight answer, for C.
ghost use Rattle.structs.specs.Inputs.{as_counts, as_placement, as_point};
ghost use Rattle.oatmarten.specs.SightCalls.{FlatLooksUp, FlatSees};

use structs::{OatCounts, OatFound, OatManner, OatPlacement, OatPoint, OatSight};

// The cell of a surveyed point.
#[unsafe(no_mangle)]
pub extern "C" fn oat_cell_of(n: OatCounts, at: OatPlacement, p: OatPoint) -> OatFound
    ensures { FlatLooksUp (as_counts n) (as_placement at) (as_point p) result }
{
    oatmarten::oat_cell_of(n, at, p)
}

// Whether anything is in the way from the camera to the ball.
#[unsafe(no_mangle)]
pub extern "C" fn oat_sight(
    n: OatCounts,
    cells: &[u8],
    at: OatPlacement,
    camera: OatPoint,
    ball: OatPoint,
    how: OatManner,
) -> OatSight
    ensures { FlatSees how (as_counts n) cells.now (as_placement at) (as_point camera) (as_point ball) result }
{
    oatmarten::oat_sight(n, cells, at, camera, ball, how)
}
