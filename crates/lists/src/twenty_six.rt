// The 26-line's list: each coordinate goes on its own.
ghost use Rattle.std.specs.Prelude.{◌≡◌, ◌+◌, ◌*◌, ◌≤◌, length};
ghost use Rattle.lines.specs.Lines.{longest, line_26};
ghost use Rattle.tripod.specs.Tripod.{steps};
ghost use Rattle.lists.specs.Lists.{filled, Line26};
ghost use Rattle.lists.specs.Kept.{pace, first_of, next_of, paces, firsts, nexts, cell_at, CanMove, CanMoves};

use crate::ends::unit_to;
use crate::put;
use crate::segment::Segment;
use cells::{Cell, Each, Refusal};

// What moves a coordinate along a 26-line: one cell towards Q, and what is added to what is due where it stays and where it goes.
#[derive(Clone, Copy)]
pub struct Pace {
    pub by: i32,
    pub stay: i32,
    pub go: i32,
}

// A coordinate on its way along a 26-line; `due` is at least 0 exactly where the next cell moves it.
#[derive(Clone, Copy)]
pub struct Coordinate {
    pub at: i32,
    pub due: i32,
}

// What moves a coordinate of a 26-line from p towards q; d is their difference, and `last` the longest one: worked out once, and handed on with its clause.
fn pace_of(p: i32, q: i32, d: u32, last: u32) -> Pace
    requires { (d ≤ 16383) × (last ≤ 16383) }
    ensures { result ≡ pace p q d last }
{
    let stay = (2 * d) as i32;
    Pace {
        by: unit_to(p, q),
        stay,
        go: stay - (2 * last) as i32,
    }
}

// The coordinate at P.
fn first_coordinate(p: i32, d: u32, last: u32) -> Coordinate
    requires { (d ≤ 16383) × (last ≤ 16383) }
    ensures { result ≡ first_of p d last }
{
    Coordinate {
        at: p,
        due: (2 * d) as i32 - last as i32,
    }
}

// The coordinate in the next cell.
fn next_coordinate(c: Coordinate, k: Pace) -> Coordinate
    requires { CanMove c k }
    ensures { result ≡ next_of k c }
{
    if 0 <= c.due {
        Coordinate {
            at: c.at + k.by,
            due: c.due + k.go,
        }
    } else {
        Coordinate {
            due: c.due + k.stay,
            ..c
        }
    }
}

// The paces of the three coordinates.
fn paces_of(segment: Segment, last: u32) -> Each<Pace>
    requires { last ≡ longest (steps segment.d) }
    ensures { result ≡ paces segment.p segment.q (steps segment.d) }
{
    let Segment { p, q, d } = segment;
    Each {
        x: pace_of(p.x, q.x, d.a, last),
        y: pace_of(p.y, q.y, d.b, last),
        z: pace_of(p.z, q.z, d.c, last),
    }
}

// The three at P.
fn first_coordinates(segment: Segment, last: u32) -> Each<Coordinate>
    requires { last ≡ longest (steps segment.d) }
    ensures { result ≡ firsts segment.p (steps segment.d) }
{
    let Segment { p, d, .. } = segment;
    Each {
        x: first_coordinate(p.x, d.a, last),
        y: first_coordinate(p.y, d.b, last),
        z: first_coordinate(p.z, d.c, last),
    }
}

// The three in the next cell.
fn next_coordinates(c: Each<Coordinate>, k: Each<Pace>) -> Each<Coordinate>
    requires { CanMoves c k }
    ensures { result ≡ nexts k c }
{
    Each {
        x: next_coordinate(c.x, k.x),
        y: next_coordinate(c.y, k.y),
        z: next_coordinate(c.z, k.z),
    }
}

// Their cell.
fn cell_at(c: Each<Coordinate>) -> Cell
    ensures { result ≡ cell_at c }
{
    Cell {
        x: c.x.at,
        y: c.y.at,
        z: c.z.at,
    }
}

// The cells of the 26-line, at the front of the slice. Each coordinate goes on its own.
fn fill26(out: &mut [i32], segment: Segment, last: u32)
    requires { (last ≡ longest (steps segment.d)) × (3 * (last + 1) ≤ length out.old) }
    ensures { out.new ≡ filled (line_26 segment.p segment.q) out.old }
{
    let k = paces_of(segment, last);
    let mut c = first_coordinates(segment, last);
    for m in 0..last {
        put(out, 3 * (m as usize), cell_at(c));
        c = next_coordinates(c, k);
    }
    put(out, 3 * (last as usize), segment.q);
}

// The 26-line from p to q.
pub fn line26(p: Cell, q: Cell, out: &mut [i32]) -> Result<u32, Refusal>
    ensures { Line26 p q out.old result out.new }
{
    let segment = Segment::between(p, q)?;
    let last = segment.d.longest();
    let count = last + 1;
    if out.len() < 3 * (count as usize) {
        return Err(Refusal::Room);
    }
    fill26(out, segment, last);
    Ok(count)
}
