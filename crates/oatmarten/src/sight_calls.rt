// The cell of a surveyed point, and the sight answer, for C.
ghost use Rattle.structs.specs.Inputs.{as_counts, as_placement, as_point};
ghost use Rattle.oatmarten.specs.SightCalls.{FlatLooksUp, FlatSees};

use cells::Manner;
use sight::Sight;
use structs::{OatCounts, OatFound, OatManner, OatPlacement, OatPoint, OatSight};

// The cell of a surveyed point.
pub fn oat_cell_of(n: OatCounts, at: OatPlacement, p: OatPoint) -> OatFound
    ensures { FlatLooksUp (as_counts n) (as_placement at) (as_point p) result }
{
    survey::cell_of(n.into(), at.into(), p.into()).into()
}

// Whether anything is in the way from the camera to the ball.
pub fn oat_sight(
    n: OatCounts,
    cells: &[u8],
    at: OatPlacement,
    camera: OatPoint,
    ball: OatPoint,
    how: OatManner,
) -> OatSight
    ensures { FlatSees how (as_counts n) cells.now (as_placement at) (as_point camera) (as_point ball) result }
{
    match Manner::try_from(how) {
        Err(r) => Sight::Refused(r).into(),
        Ok(how) => sight::see(n.into(), cells, at.into(), camera.into(), ball.into(), how).into(),
    }
}
