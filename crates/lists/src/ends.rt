// The ends of a line: refusal 1, and one cell from the one towards the other.
ghost use Rattle.std.specs.Prelude.{◌≡◌};
ghost use Rattle.lines.specs.Lines.{in_limit};
ghost use Rattle.lists.specs.Lists.{end_check, ends_check};
ghost use Rattle.lists.specs.Kept.{unit};

use cells::{Axis, Cell, End, Refusal};

// Whether a coordinate lies within the limit.
fn in_limit(v: i32) -> bool
    ensures { result ≡ in_limit v }
{
    -8192 <= v && v <= 8191
}

// An end within the coordinate limit, or refusal 1 with the first axis that is not. Apart from `check_end` of `grids`: test and refusal are others there, and
// one function would be handed both and be no shorter.
fn check_end(e: End, c: Cell) -> Result<(), Refusal>
    ensures { result ≡ end_check e c }
{
    if !in_limit(c.x) {
        return Err(Refusal::Limit(e, Axis::X));
    }
    if !in_limit(c.y) {
        return Err(Refusal::Limit(e, Axis::Y));
    }
    if !in_limit(c.z) {
        return Err(Refusal::Limit(e, Axis::Z));
    }
    Ok(())
}

// Both ends, P before Q.
pub fn check_ends(p: Cell, q: Cell) -> Result<(), Refusal>
    ensures { result ≡ ends_check p q }
{
    check_end(End::P, p)?;
    check_end(End::Q, q)
}

// One cell from p towards q.
pub(crate) fn unit_to(p: i32, q: i32) -> i32
    ensures { result ≡ unit p q }
{
    if p <= q { 1 } else { -1 }
}
