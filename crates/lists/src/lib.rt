// Line lists: the cells of the 6-line and of the 26-line, three numbers a cell, at the front of a lent slice.
#![tactic(auto)]

ghost use Rattle.std.specs.Prelude.{◌≡◌, ◌+◌, ◌≤◌, length};
ghost use Rattle.lists.specs.Kept.{put3};

mod ends; // the tests of the ends, and the way from one to the other
mod segment;
mod six;
mod twenty_six;

use cells::Cell;
pub use ends::check_ends;
pub use segment::Segment;
pub use six::{SixSpot, SixWay, crossed, first_spot, line6, six_way_of};
pub use twenty_six::line26;

// A cell's three numbers, from the place `at` of the slice on.
// Three stores: with `copy_from_slice` of the three the lists take one and a half times to three times as long.
pub fn put(out: &mut [i32], at: usize, c: Cell)
    requires { at + 3 ≤ length out.old }
    ensures { out.new ≡ put3 out.old at c }
{
    out[at] = c.x;
    out[at + 1] = c.y;
    out[at + 2] = c.z;
}
