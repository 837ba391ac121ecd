// The answers of marking, completeness and layers for C.
ghost use Rattle.std.specs.Prelude.{◌≡◌, length};
ghost use Rattle.structs.specs.GridAnswers.{flat_verdict, flat_complete, flat_part};

use crate::refusals::{ACCEPTED, OatSaid};
use cells::Refusal;
use grids::LayerPart;

// The answer of a call that accepts or refuses.
#[repr(C)]
#[derive(Clone, Copy)]
pub struct OatVerdict {
    pub said: OatSaid,
}

// The answer of the completeness call: 1 yes, 0 no.
#[repr(C)]
#[derive(Clone, Copy)]
pub struct OatComplete {
    pub said: OatSaid,
    pub yes: u32,
}

// A part of the caller's bytes: where it starts and how long it is.
#[repr(C)]
#[derive(Clone, Copy)]
pub struct OatPart {
    pub said: OatSaid,
    pub offset: u64,
    pub length: u64,
}

impl From<Result<(), Refusal>> for OatVerdict {
    ghost from_gives = { λ v r. r ≡ flat_verdict v };

    fn from(v: Result<(), Refusal>) -> OatVerdict {
        match v {
            Ok(()) => OatVerdict { said: ACCEPTED },
            Err(r) => OatVerdict { said: r.into() },
        }
    }
}

// This and the other answers of one number differ in C's names alone: its structs are types of their own.
impl From<Result<bool, Refusal>> for OatComplete {
    ghost from_gives = { λ c r. r ≡ flat_complete c };

    fn from(c: Result<bool, Refusal>) -> OatComplete {
        match c {
            Ok(yes) => OatComplete {
                said: ACCEPTED,
                yes: yes as u32,
            },
            Err(r) => OatComplete {
                said: r.into(),
                yes: 0,
            },
        }
    }
}

impl From<Result<LayerPart, Refusal>> for OatPart {
    ghost from_gives = { λ p r. r ≡ flat_part p };

    fn from(p: Result<LayerPart, Refusal>) -> OatPart {
        match p {
            Ok(part) => OatPart {
                said: ACCEPTED,
                offset: part.start as u64,
                length: part.long as u64,
            },
            Err(r) => OatPart {
                said: r.into(),
                offset: 0,
                length: 0,
            },
        }
    }
}
