// The 6-line's list: from cell to cell across the next face.
ghost use Rattle.std.specs.Prelude.{◌≡◌, ◌+◌, ◌*◌, ◌≤◌, length};
ghost use Rattle.lines.specs.Lines.{six_line};
ghost use Rattle.lines.specs.Preference.{order_of, by_rule};
ghost use Rattle.lines.specs.Steps.{at, total};
ghost use Rattle.tripod.specs.Tripod.{steps};
ghost use Rattle.lists.specs.Lists.{filled, Line6};
ghost use Rattle.lists.specs.Kept.{stepped_cell, crossed_six, CanStep, CanCrossSix, SixWayOf, SixSpotAt};

use crate::ends::unit_to;
use crate::put;
use crate::segment::Segment;
use cells::{Axis, Cell, Each, Refusal, Rule};
use lines::{Doubled, Tripod};

// What stays the same along a line: one cell towards Q, on each axis, and twice the differences.
#[derive(Clone, Copy)]
pub struct SixWay {
    pub towards: Each<i32>,
    pub twice: Doubled,
}

// A place of a line: its cell and its decision values. Apart from the walks' `Spot`, whose `at` is the number of a byte: their steps are other code, and one
// type over both would have no function of its own.
#[derive(Clone, Copy)]
pub struct SixSpot {
    pub at: Cell,
    pub e: Tripod,
}

// The way along a segment.
pub fn six_way_of(segment: Segment) -> SixWay
    ensures { SixWayOf segment.p segment.q result }
{
    let Segment { p, q, d } = segment;
    SixWay {
        towards: Each {
            x: unit_to(p.x, q.x),
            y: unit_to(p.y, q.y),
            z: unit_to(p.z, q.z),
        },
        twice: tripod::twice(d),
    }
}

// The spot of P, ties by a rule.
pub fn first_spot(segment: Segment, rule: Rule) -> SixSpot
    ensures { SixSpotAt (order_of rule segment.p segment.q) segment.p segment.q (at 0 0 0) result }
{
    let Segment { p, q, d } = segment;
    SixSpot {
        at: p,
        e: tripod::lowered(tripod::first_values(d), tripod::order_of(rule, p, q)),
    }
}

// The neighbouring cell along n.
fn next_cell(c: Cell, h: Each<i32>, n: Axis) -> Cell
    requires { CanStep c h }
    ensures { result ≡ stepped_cell h n c }
{
    match n {
        Axis::X => Cell { x: c.x + h.x, ..c },
        Axis::Y => Cell { y: c.y + h.y, ..c },
        Axis::Z => Cell { z: c.z + h.z, ..c },
    }
}

// The place across the next face along n.
pub fn crossed(s: SixSpot, w: SixWay, n: Axis) -> SixSpot
    requires { CanCrossSix s w }
    ensures { result ≡ crossed_six w n s }
{
    SixSpot {
        at: next_cell(s.at, w.towards, n),
        e: tripod::moved(s.e, w.twice, n),
    }
}

// The cells of the 6-line, at the front of the slice.
fn fill6(out: &mut [i32], segment: Segment, rule: Rule)
    requires { 3 * (total (steps segment.d) + 1) ≤ length out.old }
    ensures { out.new ≡ filled (six_line (by_rule rule segment.p segment.q) segment.p segment.q) out.old }
{
    let w = six_way_of(segment);
    let mut s = first_spot(segment, rule);
    let crossings = segment.d.total();
    for m in 0..crossings {
        put(out, 3 * (m as usize), s.at);
        s = crossed(s, w, tripod::next_face(s.e));
    }
    put(out, 3 * (crossings as usize), segment.q);
}

// The 6-line from p to q, ties by a rule.
pub fn line6(p: Cell, q: Cell, rule: Rule, out: &mut [i32]) -> Result<u32, Refusal>
    ensures { Line6 rule p q out.old result out.new }
{
    let segment = Segment::between(p, q)?;
    let cells = segment.d.total() + 1;
    if out.len() < 3 * (cells as usize) {
        return Err(Refusal::Room);
    }
    fill6(out, segment, rule);
    Ok(cells)
}
