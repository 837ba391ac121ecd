// The tripod: three decision values, moved by sums and tested by sign. One leaf picks the next face, one the next tie, one the long step; lists and walks
// use these.
// The order of the axes in a tie is in the values themselves: no test in a loop knows it.
#![tactic(auto)]

ghost use Rattle.std.specs.Prelude.{◌≡◌, ◌≤◌, true};
ghost use Rattle.cells.specs.Touching.{apart};
ghost use Rattle.lines.specs.Steps.{at, total};
ghost use Rattle.lines.specs.Lines.{differences, longest, in_limit, InLimit};
ghost use Rattle.lines.specs.Preference.{comes_before, order_of};
ghost use Rattle.lines.specs.Decisions.{values, doubled, moved_values, shift, lowered, raised};
ghost use Rattle.tripod.specs.Tripod.{steps, Short, SmallTripod, SmallDoubled, NextFace, NextTie, LongMoves};

use cells::{Axis, Cell, Each, Rule};
use lines::{Doubled, Order, Tie, Tripod};

// The differences of a line's ends. That they are short is asked where sums need it, and is no invariant: `along`, `longest` and `longest_axis` take any.
#[derive(Clone, Copy)]
pub struct Diffs {
    pub a: u32,
    pub b: u32,
    pub c: u32,
}

impl Diffs {
    // The number along an axis.
    pub fn along(self, n: Axis) -> u32
        ensures { result ≡ steps self n }
    {
        match n {
            Axis::X => self.a,
            Axis::Y => self.b,
            Axis::Z => self.c,
        }
    }

    // An axis with the longest of the three.
    pub fn longest_axis(self) -> Axis
        ensures { steps self result ≡ longest (steps self) }
    {
        if self.a < self.b {
            if self.b < self.c { Axis::Z } else { Axis::Y }
        } else if self.a < self.c {
            Axis::Z
        } else {
            Axis::X
        }
    }

    // The longest of the three.
    pub fn longest(self) -> u32
        ensures { result ≡ longest (steps self) }
    {
        self.a.max(self.b).max(self.c)
    }

    // Their sum.
    pub fn total(self) -> u32
        requires { Short self }
        ensures { result ≡ total (steps self) }
    {
        self.a + self.b + self.c
    }
}

// How far apart two coordinates are.
pub fn difference(p: i32, q: i32) -> u32
    requires { (in_limit p ≡ true) × (in_limit q ≡ true) }
    ensures { result ≡ apart p q }
{
    p.abs_diff(q)
}

// The differences of two ends within the coordinate limit.
pub fn measured(p: Cell, q: Cell) -> Diffs
    requires { InLimit p × InLimit q }
    ensures { (steps result ≡ differences p q) × Short result }
{
    let a = difference(p.x, q.x);
    let b = difference(p.y, q.y);
    let c = difference(p.z, q.z);
    Diffs { a, b, c }
}

// Whether p comes before q in the order z, then y, then x.
fn comes_before(p: Cell, q: Cell) -> bool
    ensures { result ≡ comes_before p q }
{
    (p.z, p.y, p.x) < (q.z, q.y, q.x)
}

// The order of the axes in the ties of the line from p to q.
pub fn order_of(rule: Rule, p: Cell, q: Cell) -> Order
    ensures { result ≡ order_of rule p q }
{
    match rule {
        Rule::One => Order::Yzx,
        Rule::Two if comes_before(q, p) => Order::Xzy,
        Rule::Two => Order::Yzx,
    }
}

// What is taken off the values of figure 6 in an order.
pub fn shift_of(o: Order) -> u32
    ensures { (result ≡ shift o) × (result ≤ 1) }
{
    match o {
        Order::Yzx => 0,
        Order::Xzy => 1,
    }
}

// The values of figure 6 as they are kept in an order. That they are small is asked where sums need it, and is no invariant: `next_face`, `next_tie` take any.
pub fn lowered(e: Tripod, o: Order) -> Tripod
    requires { SmallTripod e }
    ensures { result ≡ lowered o e }
{
    let shift = shift_of(o) as i32;
    Tripod {
        xy: e.xy - shift,
        xz: e.xz - shift,
        zy: e.zy - shift,
    }
}

// The values of figure 6 again. Apart from `lowered`: one function over a sign would be a third name for two words.
pub fn raised(e: Tripod, o: Order) -> Tripod
    requires { SmallTripod e }
    ensures { result ≡ raised o e }
{
    let shift = shift_of(o) as i32;
    Tripod {
        xy: e.xy + shift,
        xz: e.xz + shift,
        zy: e.zy + shift,
    }
}

// The decision values at P.
pub fn first_values(d: Diffs) -> Tripod
    requires { Short d }
    ensures { result ≡ values (steps d) (at 0 0 0) }
{
    let a = d.a as i32;
    let b = d.b as i32;
    let c = d.c as i32;
    Tripod {
        xy: b - a,
        xz: c - a,
        zy: b - c,
    }
}

// Twice the differences.
pub fn twice(d: Diffs) -> Doubled
    requires { Short d }
    ensures { result ≡ doubled (steps d) }
{
    let a2 = (2 * d.a) as i32;
    let b2 = (2 * d.b) as i32;
    let c2 = (2 * d.c) as i32;
    Doubled { a2, b2, c2 }
}

// The axis of the next face: at a place that is not the end, the crossing that comes first.
pub fn next_face(e: Tripod) -> Axis
    ensures { NextFace e result }
{
    if e.xy < 0 {
        if e.xz < 0 {
            return Axis::X;
        }
        return Axis::Z;
    }
    if e.zy < 0 {
        return Axis::Z;
    }
    Axis::Y
}

// The axes of the next faces, crossed at one point: at a place that is not the end, those whose crossings come first. The values are those of figure 6.
pub fn next_tie(v: Tripod) -> Tie
    ensures { NextTie v result }
{
    if v.xy < 0 {
        if v.xz < 0 {
            return Tie::One(Axis::X);
        }
        if 0 < v.xz {
            return Tie::One(Axis::Z);
        }
        return Tie::Two(Axis::Z, Axis::X);
    }
    if v.zy < 0 {
        return Tie::One(Axis::Z);
    }
    if 0 < v.zy {
        if 0 < v.xy {
            return Tie::One(Axis::Y);
        }
        return Tie::Two(Axis::Y, Axis::X);
    }
    if 0 < v.xy {
        return Tie::Two(Axis::Y, Axis::Z);
    }
    Tie::Three
}

// The decision values after a step along n.
pub fn moved(e: Tripod, d: Doubled, n: Axis) -> Tripod
    requires { SmallTripod e × SmallDoubled d }
    ensures { result ≡ moved_values d n e }
{
    match n {
        Axis::X => Tripod {
            xy: e.xy + d.b2,
            xz: e.xz + d.c2,
            ..e
        },
        Axis::Y => Tripod {
            xy: e.xy - d.a2,
            zy: e.zy - d.c2,
            ..e
        },
        Axis::Z => Tripod {
            xz: e.xz - d.a2,
            zy: e.zy + d.b2,
            ..e
        },
    }
}

// The moves of the long step from a 26-line cell that is not the last. `long` is an axis with the longest difference: it moves, and each other one
// moves by the sign of its decision value with that axis.
pub fn long_moves(e: Tripod, d: Diffs, long: Axis) -> Each<bool>
    requires { SmallTripod e × Short d × (steps d long ≡ longest (steps d)) }
    ensures { LongMoves (steps d) e result }
{
    let a = d.a as i32;
    let b = d.b as i32;
    let c = d.c as i32;
    match long {
        Axis::X => Each {
            x: true,
            y: 0 <= e.xy + b,
            z: 0 <= e.xz + c,
        },
        Axis::Y => Each {
            x: e.xy <= a,
            y: true,
            z: e.zy <= c,
        },
        Axis::Z => Each {
            x: e.xz <= a,
            y: 0 <= e.zy + b,
            z: true,
        },
    }
}
