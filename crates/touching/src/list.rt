// The touching line's list.
ghost use Rattle.std.specs.Prelude.{◌≡◌, [], ◌∷◌, ◌+◌, ◌*◌, ◌≤◌, ltb, length};
ghost use Rattle.lines.specs.declared.Tie.TheVariants.{Two, Three};
ghost use Rattle.lines.specs.Touching.{touching_line};
ghost use Rattle.lists.specs.Lists.{filled};
ghost use Rattle.lists.specs.Kept.{crossed_six};
ghost use Rattle.touching.specs.Touching.{LineTouching};
ghost use Rattle.touching.specs.Passing.{of_tie, tie_end};
ghost use Rattle.touching.specs.Listing.{put_cells, cells_of, CanTieSix, CanPut, Put, CanCount, Counted};

use cells::{Axis, Cell, Refusal, Rule};
use lines::{Doubled, Tie, Tripod};
use lists::{Segment, SixSpot, SixWay};

// Past a tie: what is behind it, a spot or, where cells are counted alone, its values; and how many cells and how many faces it has.
#[derive(Clone, Copy)]
pub struct Past<S> {
    pub behind: S,
    pub cells: u32,
    pub faces: u32,
}

// Three cells, one after the other. A place goes beside the slice, here and below, as it does in `lists::put`.
fn put_three(out: &mut [i32], at: usize, a: Cell, b: Cell, c: Cell)
    requires { at + 9 ≤ length out.old }
    ensures { out.new ≡ put_cells out.old at (a ∷ b ∷ c ∷ []) }
{
    lists::put(out, at, a);
    lists::put(out, at + 3, b);
    lists::put(out, at + 6, c);
}

// The cells of a tie of two axes: by the first step, by the second, by both. What looks at them, `hit::look_two`, is apart: a step there may end the walk,
// and here each is stored; so with `put_all` and `look_all`.
fn put_two(out: &mut [i32], at: usize, s: SixSpot, w: SixWay, a: Axis, b: Axis) -> SixSpot
    requires { (at + 9 ≤ length out.old) × CanTieSix w (Two a b) s }
    ensures { (out.new ≡ put_cells out.old at (cells_of (of_tie (crossed_six w) (Two a b) s))) × (result ≡ tie_end (crossed_six w) (Two a b) s) }
{
    let first = lists::crossed(s, w, a);
    let second = lists::crossed(s, w, b);
    let both = lists::crossed(first, w, b);
    put_three(out, at, first.at, second.at, both.at);
    both
}

// The cells of a tie of three: by one step, y, z, x; by two, yz, yx, zx; by all.
fn put_all(out: &mut [i32], at: usize, s: SixSpot, w: SixWay) -> SixSpot
    requires { (at + 21 ≤ length out.old) × CanTieSix w Three s }
    ensures { (out.new ≡ put_cells out.old at (cells_of (of_tie (crossed_six w) Three s))) × (result ≡ tie_end (crossed_six w) Three s) }
{
    let y = lists::crossed(s, w, Axis::Y);
    let z = lists::crossed(s, w, Axis::Z);
    let x = lists::crossed(s, w, Axis::X);
    let yz = lists::crossed(y, w, Axis::Z);
    let yx = lists::crossed(y, w, Axis::X);
    let zx = lists::crossed(z, w, Axis::X);
    let yzx = lists::crossed(yz, w, Axis::X);
    put_three(out, at, y.at, z.at, x.at);
    put_three(out, at + 9, yz.at, yx.at, zx.at);
    lists::put(out, at + 18, yzx.at);
    yzx
}

// The cells of the next tie. Spot and way are two parameters: the spot moves on, the way stays through the list.
fn put_tie(out: &mut [i32], at: usize, s: SixSpot, w: SixWay) -> Past<SixSpot>
    requires { CanPut (length out.old) at w s }
    ensures { Put out.old at w s result out.new }
{
    match tripod::next_tie(s.e) {
        Tie::One(n) => {
            let spot = lists::crossed(s, w, n);
            lists::put(out, at, spot.at);
            Past {
                behind: spot,
                cells: 1,
                faces: 1,
            }
        }
        Tie::Two(a, b) => Past {
            behind: put_two(out, at, s, w, a, b),
            cells: 3,
            faces: 2,
        },
        Tie::Three => Past {
            behind: put_all(out, at, s, w),
            cells: 7,
            faces: 3,
        },
    }
}

// The cells of the line, at the front of the slice, and how many they are. A tie of one axis, the most frequent, is passed here: then the cells grow with the
// faces, and one number counts both; `more` is how many more they are. A turn passes one, two or three faces.
fn fill(out: &mut [i32], segment: Segment) -> u32
    requires { 3 * length (touching_line segment.p segment.q) ≤ length out.old }
    ensures { (out.new ≡ filled (touching_line segment.p segment.q) out.old) × (result ≡ length (touching_line segment.p segment.q)) }
{
    let w = lists::six_way_of(segment);
    let mut s = lists::first_spot(segment, Rule::One);
    let crossings = segment.d.total();
    let mut m = 0;
    let mut more = 1;
    let mut at = 3;
    lists::put(out, 0, segment.p);
    while m < crossings {
        match tripod::next_tie(s.e) {
            Tie::One(n) => {
                s = lists::crossed(s, w, n);
                lists::put(out, at, s.at);
                at += 3;
                m += 1;
            }
            _ => {
                let past = put_tie(out, at, s, w);
                s = past.behind;
                at += 3 * (past.cells as usize);
                m += past.faces;
                more += past.cells - past.faces;
            }
        }
    }
    m + more
}

// The values behind the next tie, and how many cells it has.
fn past_tie(e: Tripod, twice: Doubled) -> Past<Tripod>
    requires { CanCount twice e }
    ensures { Counted twice e result }
{
    match tripod::next_tie(e) {
        Tie::One(n) => Past {
            behind: tripod::moved(e, twice, n),
            cells: 1,
            faces: 1,
        },
        Tie::Two(a, b) => Past {
            behind: tripod::moved(tripod::moved(e, twice, a), twice, b),
            cells: 3,
            faces: 2,
        },
        Tie::Three => {
            let y = tripod::moved(e, twice, Axis::Y);
            let yz = tripod::moved(y, twice, Axis::Z);
            Past {
                behind: tripod::moved(yz, twice, Axis::X),
                cells: 7,
                faces: 3,
            }
        }
    }
}

// How many cells the line has, before the first is stored. A turn passes one, two or three faces.
fn count_cells(segment: Segment) -> u32
    ensures { result ≡ length (touching_line segment.p segment.q) }
{
    let twice = tripod::twice(segment.d);
    let mut e = tripod::first_values(segment.d);
    let crossings = segment.d.total();
    let mut m = 0;
    let mut count = 1;
    while m < crossings {
        let past = past_tie(e, twice);
        e = past.behind;
        count += past.cells;
        m += past.faces;
    }
    count
}

// Whether so many numbers are too few. There are at most seven cells for three crossings: where there is room for so many, nothing need be counted.
fn lacks_room(room: usize, segment: Segment) -> bool
    ensures { result ≡ ltb room (3 * length (touching_line segment.p segment.q)) }
{
    let most = 3 + 7 * segment.d.total();
    room < most as usize && room < 3 * (count_cells(segment) as usize)
}

// The touching line from p to q.
pub fn line_touching(p: Cell, q: Cell, out: &mut [i32]) -> Result<u32, Refusal>
    ensures { LineTouching p q out.old result out.new }
{
    let segment = Segment::between(p, q)?;
    if lacks_room(out.len(), segment) {
        return Err(Refusal::Room);
    }
    Ok(fill(out, segment))
}
