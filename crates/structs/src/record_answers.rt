// The answers of reading a venue's and a pair's record and of writing a venue's, for C.
ghost use Rattle.std.specs.Prelude.{◌≡◌};
ghost use Rattle.structs.specs.RecordAnswers.{flat_venue, rule_number, flat_pair, flat_written};

use crate::refusals::{ACCEPTED, OatSaid};
use cells::{Refusal, Rule};
use records::{Pair, Venue};

// A venue's record that was read: its counts, and where its cells start in the caller's bytes and how many they are.
#[repr(C)]
#[derive(Clone, Copy)]
pub struct OatVenue {
    pub said: OatSaid,
    pub nx: u32,
    pub ny: u32,
    pub nz: u32,
    pub offset: u64,
    pub length: u64,
}

// A pair's record that was read: P and Q, and the number of the rule.
#[repr(C)]
#[derive(Clone, Copy)]
pub struct OatPair {
    pub said: OatSaid,
    pub px: i32,
    pub py: i32,
    pub pz: i32,
    pub qx: i32,
    pub qy: i32,
    pub qz: i32,
    pub rule: u32,
}

// The number of bytes of a venue's record that was written.
#[repr(C)]
#[derive(Clone, Copy)]
pub struct OatWritten {
    pub said: OatSaid,
    pub written: u64,
}

impl From<Result<Venue, Refusal>> for OatVenue {
    ghost from_gives = { λ v r. r ≡ flat_venue v };

    fn from(v: Result<Venue, Refusal>) -> OatVenue {
        match v {
            Ok(venue) => OatVenue {
                said: ACCEPTED,
                nx: venue.counts.nx,
                ny: venue.counts.ny,
                nz: venue.counts.nz,
                offset: venue.start as u64,
                length: venue.long as u64,
            },
            Err(r) => OatVenue {
                said: r.into(),
                nx: 0,
                ny: 0,
                nz: 0,
                offset: 0,
                length: 0,
            },
        }
    }
}

// C's number of a rule.
fn rule_code(r: Rule) -> u32
    ensures { result ≡ rule_number r }
{
    match r {
        Rule::One => 1,
        Rule::Two => 2,
    }
}

impl From<Result<Pair, Refusal>> for OatPair {
    ghost from_gives = { λ e r. r ≡ flat_pair e };

    fn from(e: Result<Pair, Refusal>) -> OatPair {
        match e {
            Ok(pair) => OatPair {
                said: ACCEPTED,
                px: pair.p.x,
                py: pair.p.y,
                pz: pair.p.z,
                qx: pair.q.x,
                qy: pair.q.y,
                qz: pair.q.z,
                rule: rule_code(pair.rule),
            },
            Err(r) => OatPair {
                said: r.into(),
                px: 0,
                py: 0,
                pz: 0,
                qx: 0,
                qy: 0,
                qz: 0,
                rule: 0,
            },
        }
    }
}

impl From<Result<usize, Refusal>> for OatWritten {
    ghost from_gives = { λ w r. r ≡ flat_written w };

    fn from(w: Result<usize, Refusal>) -> OatWritten {
        match w {
            Ok(many) => OatWritten {
                said: ACCEPTED,
                written: many as u64,
            },
            Err(r) => OatWritten {
                said: r.into(),
                written: 0,
            },
        }
    }
}
