// C's structs that go into a call, and the values that they mean. They have the fields of the types that they stand for, in C's layout.
ghost use Rattle.std.specs.Prelude.{◌≡◌};
ghost use Rattle.structs.specs.Inputs.{as_cell, as_counts, as_start, as_manner, manner_named, as_placement, as_point};

use cells::{Cell, Counts, Manner, Refusal, Start};
use survey::{Placement, Point};

// A cell.
#[repr(C)]
#[derive(Clone, Copy)]
pub struct OatCell {
    pub x: i32,
    pub y: i32,
    pub z: i32,
}

impl From<OatCell> for Cell {
    ghost from_gives = { λ c r. r ≡ as_cell c };

    fn from(c: OatCell) -> Cell {
        Cell {
            x: c.x,
            y: c.y,
            z: c.z,
        }
    }
}

// How many cells a grid has along each axis.
#[repr(C)]
#[derive(Clone, Copy)]
pub struct OatCounts {
    pub nx: u32,
    pub ny: u32,
    pub nz: u32,
}

impl From<OatCounts> for Counts {
    ghost from_gives = { λ n r. r ≡ as_counts n };

    fn from(n: OatCounts) -> Counts {
        Counts {
            nx: n.nx,
            ny: n.ny,
            nz: n.nz,
        }
    }
}

// How a walk is made; start: 0 not tested, any other number tested; rule: 1 or 2.
#[repr(C)]
#[derive(Clone, Copy)]
pub struct OatManner {
    pub start: u32,
    pub rule: u32,
}

// A start by C's number. It cannot fail, and is no `From` of `Start`, which belongs to `cells`.
pub fn start_of(number: u32) -> Start
    ensures { result ≡ as_start number }
{
    if number == 0 {
        Start::Untested
    } else {
        Start::Tested
    }
}

// A manner of C's as such, once its rule is tested. It cannot fail, and so stays beside `Manner::try_from`.
pub fn manner(how: OatManner) -> Manner
    ensures { result ≡ as_manner how }
{
    Manner {
        start: start_of(how.start),
        rule: cells::rule_of(how.rule),
    }
}

impl TryFrom<OatManner> for Manner {
    type Error = Refusal;

    ghost try_from_gives = { λ how r. r ≡ manner_named how };

    fn try_from(how: OatManner) -> Result<Self, Refusal> {
        cells::check_rule(how.rule)?;
        Ok(manner(how))
    }
}

// Where the grid lies: its origin and its cell edge, in metres.
#[repr(C)]
#[derive(Clone, Copy)]
pub struct OatPlacement {
    pub ox: f64,
    pub oy: f64,
    pub oz: f64,
    pub edge: f64,
}

impl From<OatPlacement> for Placement {
    ghost from_gives = { λ at r. r ≡ as_placement at };

    fn from(at: OatPlacement) -> Placement {
        Placement {
            ox: at.ox,
            oy: at.oy,
            oz: at.oz,
            edge: at.edge,
        }
    }
}

// A surveyed point, in metres.
#[repr(C)]
#[derive(Clone, Copy)]
pub struct OatPoint {
    pub x: f64,
    pub y: f64,
    pub z: f64,
}

impl From<OatPoint> for Point {
    ghost from_gives = { λ p r. r ≡ as_point p };

    fn from(p: OatPoint) -> Point {
        Point {
            x: p.x,
            y: p.y,
            z: p.z,
        }
    }
}
