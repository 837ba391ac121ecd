// The route of a walk through a grid: the place of a byte moves by strides, the decision values of the tripod by sums. No division, and no
// product after its start.
#![tactic(auto)]

ghost use Rattle.std.specs.Prelude.{◌≡◌, ◌≤◌, length};
ghost use Rattle.lines.specs.Steps.{at};
ghost use Rattle.lines.specs.Lines.{differences};
ghost use Rattle.tripod.specs.Tripod.{steps, Short, SmallTripod};
ghost use Rattle.grids.specs.Inside.{Enclosed};
ghost use Rattle.routes.specs.Route.{Planned, stride, strides, RouteOf, SpotAt, HasByte, byte_there, byte_of_spot, crossed_spot, raised_spot, lowered_spot, CanCross};

use cells::{Axis, Cell, Counts, Each, Rule};
use lines::{Doubled, Order, Tripod};
use tripod::Diffs;

// What stays the same along a walk.
#[derive(Clone, Copy)]
pub struct Route {
    pub n: Counts,
    pub p: Cell,
    pub q: Cell,
    pub order: Order,
    pub d: Diffs,
    // how far the place of a byte moves with a cell towards Q
    pub strides: Each<i32>,
    pub twice: Doubled,
}

// A route with the bytes of the grid that it leads through.
#[derive(Clone, Copy)]
pub struct Lane<'a> {
    pub cells: &'a [u8],
    pub route: Route,
    ghost planned: { Planned (length cells.now) route },
}

// A place of a walk: where its byte is, and its decision values.
#[derive(Clone, Copy)]
pub struct Spot {
    pub at: i32,
    pub e: Tripod,
}

// The stride from p towards q on an axis where a cell further on is `width` bytes further on.
fn stride_to(p: i32, q: i32, width: u32) -> i32
    requires { width ≤ 1048576 }
    ensures { result ≡ stride p q width }
{
    let forward = width as i32;
    if p <= q { forward } else { -forward }
}

// The strides from p towards q.
fn strides_of(n: Counts, p: Cell, q: Cell) -> Each<i32>
    requires { Enclosed n p × Enclosed n q }
    ensures { result ≡ strides n p q }
{
    Each {
        x: stride_to(p.x, q.x, 1),
        y: stride_to(p.y, q.y, n.nx),
        z: stride_to(p.z, q.z, n.nx * n.ny),
    }
}

// The route from p to q, ties by a rule.
pub fn route_of(n: Counts, p: Cell, q: Cell, rule: Rule) -> Route
    requires { Enclosed n p × Enclosed n q }
    ensures { RouteOf rule n p q result }
{
    let d = tripod::measured(p, q);
    Route {
        n,
        p,
        q,
        order: tripod::order_of(rule, p, q),
        d,
        strides: strides_of(n, p, q),
        twice: tripod::twice(d),
    }
}

// The spot of P.
pub fn first_spot(k: Route) -> Spot
    requires { Enclosed k.n k.p × Short k.d × (steps k.d ≡ differences k.p k.q) }
    ensures { SpotAt k (at 0 0 0) result }
{
    Spot {
        at: grids::index_of(k.n, k.p) as i32,
        e: tripod::lowered(tripod::first_values(k.d), k.order),
    }
}

// A spot with the values of figure 6 themselves.
pub fn raised(s: Spot, k: Route) -> Spot
    requires { SmallTripod s.e }
    ensures { result ≡ raised_spot k.order s }
{
    Spot {
        e: tripod::raised(s.e, k.order),
        ..s
    }
}

// And with those that are kept along the route again. Two functions, as `lowered` and `raised` of `tripod` are.
pub fn lowered(s: Spot, k: Route) -> Spot
    requires { SmallTripod s.e }
    ensures { result ≡ lowered_spot k.order s }
{
    Spot {
        e: tripod::lowered(s.e, k.order),
        ..s
    }
}

// The byte there. That the place has one is asked here and is no type's invariant: a type of slice and place would last for one call.
pub fn byte_there(cells: &[u8], at: i32) -> u8
    requires { HasByte (length cells.now) at }
    ensures { result ≡ byte_there cells.now at }
{
    cells[at as usize]
}

// The byte of a spot.
pub fn byte_at(cells: &[u8], s: Spot) -> u8
    requires { HasByte (length cells.now) s.at }
    ensures { result ≡ byte_of_spot cells.now s }
{
    byte_there(cells, s.at)
}

// The spot across the next face along n.
pub fn crossed(s: Spot, k: Route, n: Axis) -> Spot
    requires { CanCross s k }
    ensures { result ≡ crossed_spot k n s }
{
    let stride = match n {
        Axis::X => k.strides.x,
        Axis::Y => k.strides.y,
        Axis::Z => k.strides.z,
    };
    Spot {
        at: s.at + stride,
        e: tripod::moved(s.e, k.twice, n),
    }
}
