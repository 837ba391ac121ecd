// The answer of a first hit for C.
ghost use Rattle.std.specs.Prelude.{◌≡◌};
ghost use Rattle.structs.specs.WalkAnswers.{no_hit, flat_hit};

use crate::faces::face_code;
use crate::refusals::{ACCEPTED, OatSaid};
use cells::Refusal;
use walks::{FirstHit, Hit};

// The answer of a first-hit call; hit: 0 clear, 1 a hit at a cell, with its code, its place num over den and its entry face.
#[repr(C)]
#[derive(Clone, Copy)]
pub struct OatHit {
    pub said: OatSaid,
    pub hit: u32,
    pub x: i32,
    pub y: i32,
    pub z: i32,
    pub code: u32,
    pub num: u32,
    pub den: u32,
    pub face: i32,
    pub reads: u32,
}

// A walk that hit nothing, or that was not made.
fn no_hit(said: OatSaid, many: u32) -> OatHit
    ensures { result ≡ no_hit said many }
{
    OatHit {
        said,
        hit: 0,
        x: 0,
        y: 0,
        z: 0,
        code: 0,
        num: 0,
        den: 0,
        face: 0,
        reads: many,
    }
}

// A walk that hit. Apart from the `From`, so that no arm of its match is long.
fn flat_block(h: Hit) -> OatHit
    ensures { result ≡ flat_hit (Ok (FirstHit.Hit h)) }
{
    let place = h.place;
    OatHit {
        said: ACCEPTED,
        hit: 1,
        x: h.cell.x,
        y: h.cell.y,
        z: h.cell.z,
        code: h.code as u32,
        num: place.num,
        den: place.den,
        face: face_code(place.face),
        reads: h.reads,
    }
}

impl From<Result<FirstHit, Refusal>> for OatHit {
    ghost from_gives = { λ h r. r ≡ flat_hit h };

    fn from(h: Result<FirstHit, Refusal>) -> OatHit {
        match h {
            Ok(FirstHit::Hit(b)) => flat_block(b),
            Ok(FirstHit::Clear(many)) => no_hit(ACCEPTED, many),
            Err(r) => no_hit(r.into(), 0),
        }
    }
}
