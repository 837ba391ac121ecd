// The sight answer: is anything in the way from a camera to the ball? Two lookups, then the adaptive walk.
#![tactic(auto)]

ghost use Rattle.std.specs.Prelude.{◌≡◌, length};
ghost use Rattle.cells.specs.Checks.{◌then◌};
ghost use Rattle.grids.specs.Grid.{shape};
ghost use Rattle.walks.specs.declared.Walker.TheVariants.{Adaptive};
ghost use Rattle.grids.specs.Inside.{walk_check};
ghost use Rattle.walks.specs.Answers.{Finds};
ghost use Rattle.survey.specs.Survey.{PlacedGrid, placement_check};
ghost use Rattle.sight.specs.Sight.{share_of, sight_of, looked, Sees};

use cells::{Cell, Counts, End, Face, Manner, Refusal};
use grids::Grid;
use routes::Lane;
use survey::{Placement, Point};
use walks::FirstHit;

// What is in the way: the share of the way to it, its cell and code, how many cells were read, and the face by which the line came in.
#[derive(Clone, Copy)]
pub struct Block {
    pub share: f64,
    pub cell: Cell,
    pub code: u8,
    pub reads: u32,
    pub face: Face,
}

// The sight answer. Its three cases are named so by SCOPE's F1: a refusal stands beside what is seen, not around it.
#[derive(Clone, Copy)]
pub enum Sight {
    Clear,
    Blocked(Block),
    Refused(Refusal),
}

// The share of the way: two whole numbers made f64 exactly, divided once.
fn share(num: u32, den: u32) -> f64
    ensures { result ≡ share_of num den }
{
    (num as f64) / (den as f64)
}

// What a walk tells of the sight.
fn sight_of(h: FirstHit) -> Sight
    ensures { result ≡ sight_of (Ok h) }
{
    match h {
        FirstHit::Clear(_) => Sight::Clear,
        FirstHit::Hit(hit) => Sight::Blocked(Block {
            share: share(hit.place.num, hit.place.den),
            cell: hit.cell,
            code: hit.code,
            reads: hit.reads,
            face: hit.place.face,
        }),
    }
}

// The adaptive walk between two cells that were looked up: they lie in the grid, so its tests are passed. It is made from its pieces: one function
// shared with the adaptive call would be compiled apart, and the answer would go through memory once more.
fn walked(n: Counts, cells: &[u8], p: Cell, q: Cell, how: Manner) -> FirstHit
    requires { walk_check n (length cells.now) p q ≡ Ok tt }
    ensures { Finds Adaptive how n cells.now p q (Ok result) }
{
    let lane = Lane {
        cells,
        route: routes::route_of(n, p, q, how.rule),
    };
    let stop = hits::walk_adaptive(lane, how);
    hits::answer_of(&lane, stop, how)
}

// Where shape and placement passed their tests: the camera's refusal first, then the ball's. SCOPE's F4 names the `let .. else`; `?` has no place here, as the
// answer is a `Sight`.
fn look(g: Grid, at: Placement, camera: Point, ball: Point, how: Manner) -> Sight
    requires { PlacedGrid g.counts at }
    ensures { result ≡ looked how g.entry.counts g.entry.cells.now at camera ball }
{
    let from = survey::look_up(End::P, g.counts, at, camera);
    let Ok(p) = from else {
        return Sight::Refused(from.unwrap_err());
    };
    let to = survey::look_up(End::Q, g.counts, at, ball);
    let Ok(q) = to else {
        return Sight::Refused(to.unwrap_err());
    };
    sight_of(walked(g.counts, g.cells, p, q, how))
}

// What is tested before any point: refusals 2, 3, then 7.
fn check(n: Counts, bytes: usize, at: Placement) -> Result<(), Refusal>
    ensures { result ≡ (shape n bytes then placement_check at) }
{
    grids::shape(n, bytes)?;
    survey::check_placement(at)
}

// Whether anything is in the way from the camera to the ball.
#[tactic(auto, unfolding(crate::specs::Sight::sight))]
pub fn see(n: Counts, cells: &[u8], at: Placement, camera: Point, ball: Point, how: Manner) -> Sight
    ensures { Sees how n cells.now at camera ball result }
{
    match check(n, cells.len(), at) {
        Err(r) => Sight::Refused(r),
        Ok(()) => look(Grid { counts: n, cells }, at, camera, ball, how),
    }
}
