// The answer of a list for C.
ghost use Rattle.std.specs.Prelude.{◌≡◌};
ghost use Rattle.structs.specs.LineAnswers.{flat_listed};

use crate::refusals::{ACCEPTED, OatSaid};
use cells::Refusal;

// The answer of a list: the number of cells.
#[repr(C)]
#[derive(Clone, Copy)]
pub struct OatListed {
    pub said: OatSaid,
    pub count: u32,
}

impl From<Result<u32, Refusal>> for OatListed {
    ghost from_gives = { λ l r. r ≡ flat_listed l };

    fn from(l: Result<u32, Refusal>) -> OatListed {
        match l {
            Ok(count) => OatListed {
                said: ACCEPTED,
                count,
            },
            Err(r) => OatListed {
                said: r.into(),
                count: 0,
            },
        }
    }
}
