// The answer of the calls that keep counts, for C.
ghost use Rattle.std.specs.Prelude.{◌≡◌};
ghost use Rattle.structs.specs.BrickAnswers.{flat_tally};

use crate::refusals::{ACCEPTED, OatSaid};
use cells::Refusal;

// The answer of the three calls: the number of solid cells.
#[repr(C)]
#[derive(Clone, Copy)]
pub struct OatTally {
    pub said: OatSaid,
    pub total: u64,
}

impl From<Result<u64, Refusal>> for OatTally {
    ghost from_gives = { λ t r. r ≡ flat_tally t };

    fn from(t: Result<u64, Refusal>) -> OatTally {
        match t {
            Ok(total) => OatTally {
                said: ACCEPTED,
                total,
            },
            Err(r) => OatTally {
                said: r.into(),
                total: 0,
            },
        }
    }
}
