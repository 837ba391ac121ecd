// The trail: the cells on which the adaptive walk stands, listed. They are cells of the 6-line, so one face after another is crossed; which of the cells on
// the way are listed is seen from the bytes and from how far the next cell of the 26-line is.
#![tactic(auto)]

ghost use Rattle.std.specs.Prelude.{◌≡◌, ◌*◌, ◌≤◌, length};
ghost use Rattle.routes.specs.Route.{HasByte};
ghost use Rattle.lists.specs.Lists.{filled, Lists};
ghost use Rattle.trails.specs.Trails.{AdaptiveCells};
ghost use Rattle.trails.specs.Standing.{stand_cells, walked, CanList, CanPass, Passed, CellOf, CanStep, StepsSomewhere, FacesAhead, to_cross, Stepped};

use cells::{Axis, Cell, Counts, Manner, Refusal};
use routes::{Lane, Route, Spot};

// Where the walk stands, and how many faces lead to the next cell of the 26-line; none where it stands on one. Apart from `runs::Run`,
// whose number counts long steps.
#[derive(Clone, Copy)]
pub struct Stand {
    pub spot: Spot,
    pub left: u32,
}

// Over so many faces, one after another.
fn over_faces(k: Route, start: Spot, faces: u32) -> Spot
    requires { CanPass k faces start }
    ensures { Passed k faces start result }
{
    let mut s = start;
    for _ in 0..faces {
        s = routes::crossed(s, k, tripod::next_face(s.e));
    }
    s
}

// How many faces lead to the next cell of the 26-line, from one of its cells to the one behind it.
fn faces_ahead(k: Route, long: Axis, t: Stand) -> u32
    requires { StepsSomewhere k long t }
    ensures { FacesAhead k t result }
{
    if 0 < t.left {
        return t.left;
    }
    let e = tripod::raised(t.spot.e, k.order);
    hits::faces_of(tripod::long_moves(e, k.d, long))
}

// How many of the faces ahead the walk crosses before it stands again: all of them from a clear cell of the 26-line, else one.
fn to_cross(cells: &[u8], t: Stand, ahead: u32) -> u32
    requires { HasByte (length cells.now) t.spot.at }
    ensures { result ≡ to_cross cells.now t ahead }
{
    if t.left == 0 && routes::byte_at(cells, t.spot) == 0 {
        ahead
    } else {
        1
    }
}

// Where the walk stands next.
fn next_stand(lane: Lane, long: Axis, t: Stand) -> Stand
    requires { CanStep (length lane.cells.now) lane.route long t }
    ensures { Stepped lane.entry.cells.now lane.entry.route t result }
{
    let ahead = faces_ahead(lane.route, long, t);
    let faces = to_cross(lane.cells, t, ahead);
    Stand {
        spot: over_faces(lane.route, t.spot, faces),
        left: ahead - faces,
    }
}

// The cell of a spot.
fn spot_cell(k: Route, s: Spot) -> Cell
    requires { CanPass k 0 s }
    ensures { CellOf k s result }
{
    grids::cell_at(k.n, s.at as u32)
}

// So many cells of the trail, at the front of the slice.
fn fill(lane: Lane, count: u32, out: &mut [i32])
    requires { CanList lane.cells.now lane.route count × (3 * count ≤ length out.old) }
    ensures { out.new ≡ filled (stand_cells lane.entry.cells.now lane.entry.route count) out.old }
{
    let long = lane.route.d.longest_axis();
    let last = count - 1;
    let mut t = Stand {
        spot: routes::first_spot(lane.route),
        left: 0,
    };
    for m in 0..last {
        lists::put(out, 3 * (m as usize), spot_cell(lane.route, t.spot));
        t = next_stand(lane, long, t);
    }
    lists::put(out, 3 * (last as usize), spot_cell(lane.route, t.spot));
}

// The trail along a route: counted first, then listed.
fn list_along(lane: Lane, how: Manner, out: &mut [i32]) -> Result<u32, Refusal>
    ensures { Lists (walked lane.entry.cells.now lane.entry.route how.start) (Ok tt) out.old result out.new }
{
    let count = hits::walk_adaptive(lane, how).reads;
    if out.len() < 3 * (count as usize) {
        return Err(Refusal::Room);
    }
    fill(lane, count, out);
    Ok(count)
}

// The cells on which the adaptive walk from p to q stands.
pub fn adaptive_cells(
    n: Counts,
    cells: &[u8],
    p: Cell,
    q: Cell,
    how: Manner,
    out: &mut [i32],
) -> Result<u32, Refusal>
    ensures { AdaptiveCells how n cells.now p q out.old result out.new }
{
    grids::check_walk(n, cells.len(), p, q)?;
    let lane = Lane {
        cells,
        route: routes::route_of(n, p, q, how.rule),
    };
    list_along(lane, how, out)
}
