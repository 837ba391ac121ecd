// The place of a hit with its entry face, worked out once, where a walk stopped. Which axis was crossed last cannot be foreseen: what depends on it is
// chosen number by number, so that no branch is taken on it.
#![tactic(auto)]

ghost use Rattle.std.specs.Prelude.{◌≡◌, cond, ◌&&◌, ◌≤◌};
ghost use Rattle.cells.specs.declared.Face.TheVariants as Face;
ghost use Rattle.lines.specs.Steps.{X, Y, Z};
ghost use Rattle.lines.specs.Lines.{face_along};
ghost use Rattle.tripod.specs.Tripod.{steps, Short};
ghost use Rattle.places.specs.Entered.{numerator, added, behind, last_made, of_last, entered};

use cells::{Axis, Cell, Face};
use lines::Order;
use tripod::Diffs;
use walks::Place;

// The upper number of the crossing last made, 0 where there is none.
fn numerator_of(i: u32) -> u32
    requires { i ≤ 16383 }
    ensures { result ≡ numerator i }
{
    if i == 0 { 0 } else { 2 * i - 1 }
}

// What is added to the product of a crossing at j: nothing where none was made.
fn added(j: u32, shift: u32) -> u32
    requires { shift ≤ 1 }
    ensures { (result ≡ added j shift) × (result ≤ 1) }
{
    if j == 0 { 0 } else { shift }
}

// Whether a crossing was made at i over 2a, and none at j over 2b or one at a fraction that is no greater; with a shift of 1, that is less.
fn is_behind(i: u32, a: u32, j: u32, b: u32, shift: u32) -> bool
    requires { (i ≤ 32767) × (a ≤ 16383) × (j ≤ 32767) × (b ≤ 16383) × (shift ≤ 1) }
    ensures { result ≡ behind i a j b shift }
{
    let later = j * a + added(j, shift) <= i * b;
    0 < i && later
}

// Which axis was crossed last: x; or else z where it comes after y; or else y. Two flags and no `Axis`: by each a number is chosen with no branch.
#[derive(Clone, Copy)]
pub struct Last {
    pub x: bool,
    pub z: bool,
}

// Of the crossings last made on each axis, the last.
fn last_made(d: Diffs, t: Diffs, o: Order) -> Last
    requires { Short d × Short t }
    ensures { result ≡ last_made o (steps d) (steps t) }
{
    let shift = tripod::shift_of(o);
    let i = numerator_of(t.a);
    let j = numerator_of(t.b);
    let k = numerator_of(t.c);
    let y_before = is_behind(i, d.a, j, d.b, shift);
    let z_before = is_behind(i, d.a, k, d.c, shift);
    Last {
        x: y_before && z_before,
        z: is_behind(k, d.c, j, d.b, shift),
    }
}

// Of what x, y and z have, that of the axis crossed last.
fn of_last<T: Copy>(w: Last, x: T, y: T, z: T) -> T
    ensures { result ≡ of_last w x y z }
{
    if w.x {
        x
    } else if w.z {
        z
    } else {
        y
    }
}

// The face of axis n, by the sign of the move.
fn face_of(rising: bool, n: Axis) -> Face
    ensures { result ≡ cond rising (Face.Plus n) (Face.Minus n) }
{
    if rising {
        Face::Plus(n)
    } else {
        Face::Minus(n)
    }
}

// The face that the line from p to q crosses along the axis crossed last.
fn last_face(p: Cell, q: Cell, w: Last) -> Face
    ensures { result ≡ face_along p q (of_last w X Y Z) }
{
    let rising = of_last(w, p.x <= q.x, p.y <= q.y, p.z <= q.z);
    face_of(rising, of_last(w, Axis::X, Axis::Y, Axis::Z))
}

// The place of a hit on the line from p to q, after t steps of d.
#[tactic(auto, unfolding(crate::specs::Entered::entered))]
pub fn place_after(p: Cell, q: Cell, o: Order, d: Diffs, t: Diffs) -> Place
    requires { Short d × Short t }
    ensures { result ≡ entered p q o (steps d) (steps t) }
{
    if t.total() == 0 {
        return Place {
            num: 0,
            den: 1,
            face: Face::None,
        };
    }
    let w = last_made(d, t, o);
    Place {
        num: numerator_of(of_last(w, t.a, t.b, t.c)),
        den: 2 * of_last(w, d.a, d.b, d.c),
        face: last_face(p, q, w),
    }
}
