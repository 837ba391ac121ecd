// The first hit along the touching line.
ghost use Rattle.std.specs.Prelude.{◌≡◌, ◌&&◌, [], ◌∷◌, length};
ghost use Rattle.lines.specs.declared.Tie.TheVariants.{Two, Three};
ghost use Rattle.lines.specs.Steps.{at};
ghost use Rattle.lines.specs.declared.Order.TheVariants.{Yzx};
ghost use Rattle.cells.specs.Manners.{is_tested};
ghost use Rattle.grids.specs.Grid.{solid};
ghost use Rattle.routes.specs.Route.{SpotAt, HasByte, byte_of_spot, crossed_spot};
ghost use Rattle.touching.specs.Touching.{FindsTouching};
ghost use Rattle.touching.specs.Passing.{of_tie};
ghost use Rattle.touching.specs.Looking.{looked, CanLook, CanLookTie, CanTurn, Turned, told_from, found_along, WalksTies, StopsTouching};

use cells::{Axis, Cell, Counts, Manner, Refusal, Rule, Start};
use hits::{Stop, Turn};
use lines::{Order, Tie, Tripod};
use routes::{Lane, Route, Spot};
use walks::FirstHit;

// A turn of the walk, over the cells of a tie, with how many faces the tie has.
#[derive(Clone, Copy)]
pub struct TieTurn {
    pub turn: Turn,
    pub faces: u32,
}

// The cell of a spot.
fn look(cells: &[u8], s: Spot, reads: u32) -> Turn
    requires { CanLook (length cells.now) reads (s ∷ []) }
    ensures { result ≡ looked cells.now reads s (s ∷ []) }
{
    Turn {
        spot: s,
        reads: reads + 1,
        hit: hits::is_solid(routes::byte_at(cells, s)),
    }
}

// Three of them, up to the first that is solid. How many were read goes beside the spot, here and below: a caller changes one without the other.
fn look_three(cells: &[u8], a: Spot, b: Spot, c: Spot, reads: u32) -> Turn
    requires { CanLook (length cells.now) reads (a ∷ b ∷ c ∷ []) }
    ensures { result ≡ looked cells.now reads a (a ∷ b ∷ c ∷ []) }
{
    let first = look(cells, a, reads);
    if first.hit {
        return first;
    }
    let second = look(cells, b, reads + 1);
    if second.hit {
        return second;
    }
    look(cells, c, reads + 2)
}

// The cells of a tie of two axes: by the first step, by the second, by both.
fn look_two(lane: Lane, s: Spot, a: Axis, b: Axis, reads: u32) -> Turn
    requires { CanLookTie (length lane.cells.now) lane.route s reads (Two a b) }
    ensures { result ≡ looked lane.entry.cells.now reads s (of_tie (crossed_spot lane.entry.route) (Two a b) s) }
{
    let k = lane.route;
    let first = routes::crossed(s, k, a);
    let second = routes::crossed(s, k, b);
    let both = routes::crossed(first, k, b);
    look_three(lane.cells, first, second, both, reads)
}

// The cells of a tie of three: by one step, y, z, x; by two, yz, yx, zx; by all.
fn look_all(lane: Lane, s: Spot, reads: u32) -> Turn
    requires { CanLookTie (length lane.cells.now) lane.route s reads Three }
    ensures { result ≡ looked lane.entry.cells.now reads s (of_tie (crossed_spot lane.entry.route) Three s) }
{
    let k = lane.route;
    let y = routes::crossed(s, k, Axis::Y);
    let z = routes::crossed(s, k, Axis::Z);
    let x = routes::crossed(s, k, Axis::X);
    let ones = look_three(lane.cells, y, z, x, reads);
    if ones.hit {
        return ones;
    }
    let yz = routes::crossed(y, k, Axis::Z);
    let yx = routes::crossed(y, k, Axis::X);
    let zx = routes::crossed(z, k, Axis::X);
    let twos = look_three(lane.cells, yz, yx, zx, reads + 3);
    if twos.hit {
        return twos;
    }
    look(lane.cells, routes::crossed(yz, k, Axis::X), reads + 6)
}

// The cells of the next tie.
fn tie_turn(lane: Lane, s: Spot, reads: u32) -> TieTurn
    requires { CanTurn (length lane.cells.now) lane.route s reads }
    ensures { Turned lane.entry.cells.now lane.entry.route s reads result }
{
    match tripod::next_tie(s.e) {
        Tie::One(n) => TieTurn {
            turn: look(lane.cells, routes::crossed(s, lane.route, n), reads),
            faces: 1,
        },
        Tie::Two(a, b) => TieTurn {
            turn: look_two(lane, s, a, b, reads),
            faces: 2,
        },
        Tie::Three => TieTurn {
            turn: look_all(lane, s, reads),
            faces: 3,
        },
    }
}

// From P, which is passed, from tie to tie: to the first solid cell, or to Q. A tie of one axis, the most frequent, is passed here: then the cells read grow
// with the faces, and one number counts both; `more` is how many more they are. A turn passes one, two or three faces. That ties go by
// y, z, x is asked here and of the two callers alone: a lane of a type of its own would say no more.
fn walk_ties(lane: Lane, start: Spot) -> Turn
    requires { (lane.route.order ≡ Yzx) × SpotAt lane.route (at 0 0 0) start }
    ensures { WalksTies lane.entry.cells.now lane.entry.route result }
{
    let faces = lane.route.d.total();
    let mut s = start;
    let mut more = 1;
    let mut m = 0;
    while m < faces {
        match tripod::next_tie(s.e) {
            Tie::One(n) => {
                s = routes::crossed(s, lane.route, n);
                m += 1;
                if hits::is_solid(routes::byte_at(lane.cells, s)) {
                    return Turn {
                        spot: s,
                        reads: m + more,
                        hit: true,
                    };
                }
            }
            _ => {
                let t = tie_turn(lane, s, m + more);
                s = t.turn.spot;
                m += t.faces;
                if t.turn.hit {
                    return t.turn;
                }
                more = t.turn.reads - m;
            }
        }
    }
    Turn {
        spot: s,
        reads: m + more,
        hit: false,
    }
}

// Whether P is the hit: it is tested, and the byte there is solid.
fn starts_solid(cells: &[u8], s: Spot, how: Manner) -> bool
    requires { HasByte (length cells.now) s.at }
    ensures { result ≡ (is_tested how.start && solid (byte_of_spot cells.now s)) }
{
    how.tests_start() && hits::is_solid(routes::byte_at(cells, s))
}

// The walk: P, where it is tested, then the ties.
fn walk_touching(lane: Lane, how: Manner) -> Turn
    requires { lane.route.order ≡ Yzx }
    ensures { StopsTouching how.start lane.entry.cells.now lane.entry.route result }
{
    let start = routes::first_spot(lane.route);
    if starts_solid(lane.cells, start, how) {
        return Turn {
            spot: start,
            reads: 1,
            hit: true,
        };
    }
    walk_ties(lane, start)
}

// The route by which a hit's place is told: of crossings at one fraction the last in the order x, z, y is the first in the order y, z, x.
fn told_from(k: Route) -> Route
    ensures { result ≡ told_from k }
{
    Route {
        order: Order::Xzy,
        ..k
    }
}

// What the walk finds along a route. The other route is made first: what it holds then need not be at hand while the walk goes on. The answer does not
// ask for the decision values where the walk stopped: without them none are worked out for a cell of a tie that is left there.
fn touching_answer(lane: Lane, how: Manner) -> FirstHit
    requires { lane.route.order ≡ Yzx }
    ensures { result ≡ found_along how.start lane.entry.cells.now lane.entry.route }
{
    let told = Lane {
        cells: lane.cells,
        route: told_from(lane.route),
    };
    let t = walk_touching(lane, how);
    if t.hit {
        let none = Tripod {
            xy: 0,
            xz: 0,
            zy: 0,
        };
        let there = Spot {
            at: t.spot.at,
            e: none,
        };
        let stop = Stop {
            spot: there,
            reads: t.reads,
        };
        return hits::answer_of(&told, stop, how);
    }
    FirstHit::Clear(t.reads)
}

// The first hit along the touching line from p to q.
#[tactic(auto, unfolding(crate::specs::Touching::first_touching))]
pub fn first_touching(
    n: Counts,
    cells: &[u8],
    p: Cell,
    q: Cell,
    start: Start,
) -> Result<FirstHit, Refusal>
    ensures { FindsTouching start n cells.now p q result }
{
    let how = Manner {
        start,
        rule: Rule::One,
    };
    grids::check_walk(n, cells.len(), p, q)?;
    let lane = Lane {
        cells,
        route: routes::route_of(n, p, q, how.rule),
    };
    Ok(touching_answer(lane, how))
}
