// The cell of a surveyed point, and the sight answer, for C.
ghost use Rattle.std.specs.Prelude.{◌≡◌};
ghost use Rattle.structs.specs.SightAnswers.{flat_found, unblocked, flat_sight};

use crate::faces::face_code;
use crate::refusals::{ACCEPTED, OatSaid};
use cells::{Cell, Refusal};
use sight::{Block, Sight};

// The cell of a point.
#[repr(C)]
#[derive(Clone, Copy)]
pub struct OatFound {
    pub said: OatSaid,
    pub x: i32,
    pub y: i32,
    pub z: i32,
}

impl From<Result<Cell, Refusal>> for OatFound {
    ghost from_gives = { λ l r. r ≡ flat_found l };

    fn from(l: Result<Cell, Refusal>) -> OatFound {
        match l {
            Ok(c) => OatFound {
                said: ACCEPTED,
                x: c.x,
                y: c.y,
                z: c.z,
            },
            Err(r) => OatFound {
                said: r.into(),
                x: 0,
                y: 0,
                z: 0,
            },
        }
    }
}

// The sight answer; blocked: 0 clear, 1 something in the way at a cell, with the share of the way to it and the entry face.
#[repr(C)]
#[derive(Clone, Copy)]
pub struct OatSight {
    pub said: OatSaid,
    pub blocked: u32,
    pub share: f64,
    pub x: i32,
    pub y: i32,
    pub z: i32,
    pub code: u32,
    pub reads: u32,
    pub face: i32,
}

// A sight with nothing in the way, or that was refused.
fn unblocked(said: OatSaid) -> OatSight
    ensures { result ≡ unblocked said }
{
    OatSight {
        said,
        blocked: 0,
        share: 0u32 as f64,
        x: 0,
        y: 0,
        z: 0,
        code: 0,
        reads: 0,
        face: 0,
    }
}

// A sight with something in the way. Apart from the `From`, so that no arm of its match is long.
fn flat_blocked(b: Block) -> OatSight
    ensures { result ≡ flat_sight (Sight.Blocked b) }
{
    OatSight {
        said: ACCEPTED,
        blocked: 1,
        share: b.share,
        x: b.cell.x,
        y: b.cell.y,
        z: b.cell.z,
        code: b.code as u32,
        reads: b.reads,
        face: face_code(b.face),
    }
}

impl From<Sight> for OatSight {
    ghost from_gives = { λ s r. r ≡ flat_sight s };

    fn from(s: Sight) -> OatSight {
        match s {
            Sight::Blocked(b) => flat_blocked(b),
            Sight::Clear => unblocked(ACCEPTED),
            Sight::Refused(r) => unblocked(r.into()),
        }
    }
}
