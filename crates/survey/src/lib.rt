// From metres to cells: a surveyed point turned into its cell.
#![tactic(auto)]

ghost use Rattle.std.specs.Prelude.{◌≡◌, true, ◌+◌, ◌<◌};
ghost use Rattle.std.specs.Float.Ieee.{le};
ghost use Rattle.survey.specs.Quotient.{as_f64, quotient, outside, cell_number};
ghost use Rattle.survey.specs.Search.{Inside, AllInside, Closer};
ghost use Rattle.survey.specs.Survey.{bad_edge, placement_check, PlacedGrid, quotients, value_check, point_check, cell_at, look_up, LooksUp};

use cells::{Axis, Cell, Counts, End, Part, Refusal};

// Where the grid stands in the venue: its origin and the edge of a cell, in metres.
#[derive(Clone, Copy)]
pub struct Placement {
    pub ox: f64,
    pub oy: f64,
    pub oz: f64,
    pub edge: f64,
}

// A surveyed point, in metres; or where it lies in cells from the origin. SCOPE's F2 names it and the placement.
#[derive(Clone, Copy)]
pub struct Point {
    pub x: f64,
    pub y: f64,
    pub z: f64,
}

// The whole numbers from lo up to hi, hi left out.
#[derive(Clone, Copy)]
struct Span {
    lo: u32,
    hi: u32,
}

// ---- the tests

#[tactic(auto, using(crate::proofs::Finite::same_finite, crate::proofs::Whole::zero_is))]
fn bad_edge(edge: f64) -> bool
    ensures { result ≡ bad_edge edge }
{
    !edge.is_finite() || !(0.0 < edge)
}

// Refusal 7: origin x, y, z, edge.
#[tactic(auto, using(crate::proofs::Finite::same_finite), unfolding(crate::specs::Survey::placement_check))]
pub fn check_placement(at: Placement) -> Result<(), Refusal>
    ensures { result ≡ placement_check at }
{
    if !at.ox.is_finite() {
        return Err(Refusal::Placement(Part::OriginX));
    }
    if !at.oy.is_finite() {
        return Err(Refusal::Placement(Part::OriginY));
    }
    if !at.oz.is_finite() {
        return Err(Refusal::Placement(Part::OriginZ));
    }
    if bad_edge(at.edge) {
        return Err(Refusal::Placement(Part::Edge));
    }
    Ok(())
}

// ---- one axis

// Two operations, each rounded once.
fn quotient(value: f64, origin: f64, edge: f64) -> f64
    ensures { result ≡ quotient value origin edge }
{
    (value - origin) / edge
}

// Below 0, or above the count.
#[tactic(auto, using(crate::proofs::Whole::zero_is))]
fn outside(count: u32, q: f64) -> bool
    ensures { result ≡ outside count q }
{
    q < 0.0 || (count as f64) < q
}

// Refusals 8, then 9, of one value.
#[tactic(auto, using(crate::proofs::Finite::same_finite))]
fn check_value(end: End, axis: Axis, count: u32, value: f64, q: f64) -> Result<(), Refusal>
    ensures { result ≡ value_check end axis count value q }
{
    if !value.is_finite() {
        return Err(Refusal::NotFinite(end, axis));
    }
    if outside(count, q) {
        return Err(Refusal::OffSurvey(end, axis));
    }
    Ok(())
}

// The half of a span that q lies in; a q above the span lies in the upper half.
fn halved(q: f64, s: Span) -> Span
    requires { (le (as_f64 s.lo) q ≡ true) × (s.lo + 1 < s.hi) }
    ensures { Closer q s result }
{
    let mid = s.lo + (s.hi - s.lo) / 2;
    if q < (mid as f64) {
        Span { hi: mid, ..s }
    } else {
        Span { lo: mid, ..s }
    }
}

// The whole number n below the count with n ≤ q < n + 1, the last one where q is the count; by comparisons alone.
fn cell_number(count: u32, q: f64) -> u32
    requires { Inside count q }
    ensures { result ≡ cell_number count q }
{
    let mut s = Span { lo: 0, hi: count };
    // a span is halved, no index counted
    while s.lo + 1 < s.hi {
        s = halved(q, s);
    }
    s.lo
}

// ---- a point

// The quotients of a point on the three axes.
fn quotients(at: Placement, point: Point) -> Point
    ensures { result ≡ quotients at point }
{
    Point {
        x: quotient(point.x, at.ox, at.edge),
        y: quotient(point.y, at.oy, at.edge),
        z: quotient(point.z, at.oz, at.edge),
    }
}

// Refusals 8 and 9 of a point with its quotients: x, y, z.
#[tactic(auto, unfolding(crate::specs::Survey::point_check))]
fn check_point(end: End, n: Counts, point: Point, q: Point) -> Result<(), Refusal>
    ensures { result ≡ point_check end n point q }
{
    check_value(end, Axis::X, n.nx, point.x, q.x)?;
    check_value(end, Axis::Y, n.ny, point.y, q.y)?;
    check_value(end, Axis::Z, n.nz, point.z, q.z)
}

// The cell that has these quotients.
fn cell_at(n: Counts, q: Point) -> Cell
    requires { AllInside n q }
    ensures { result ≡ cell_at n q }
{
    let x = cell_number(n.nx, q.x) as i32;
    let y = cell_number(n.ny, q.y) as i32;
    let z = cell_number(n.nz, q.z) as i32;
    Cell { x, y, z }
}

// The cell of an end's point, where counts and placement passed their tests.
#[tactic(auto, using(crate::proofs::Survey::point_inside), unfolding(crate::specs::Survey::look_up))]
pub fn look_up(end: End, n: Counts, at: Placement, point: Point) -> Result<Cell, Refusal>
    requires { PlacedGrid n at }
    ensures { result ≡ look_up end n at point }
{
    let q = quotients(at, point);
    check_point(end, n, point, q)?;
    Ok(cell_at(n, q))
}

// The cell of a surveyed point: refusals 2, 7, then 8 and 9 with P named as the end.
#[tactic(auto, unfolding(crate::specs::Survey::cell_of))]
pub fn cell_of(n: Counts, at: Placement, point: Point) -> Result<Cell, Refusal>
    ensures { LooksUp n at point result }
{
    grids::check_counts(n)?;
    check_placement(at)?;
    look_up(End::P, n, at, point)
}
