// Theory only: the plain and the adaptive walk stand in specs/, the laws about them in proofs/. The types are the answer of a first-hit call.
#![tactic(auto)]

use cells::{Cell, Face};

// Which of the two walks.
#[derive(Clone, Copy)]
pub enum Walker {
    Plain,
    Adaptive,
}

// By which crossing the line enters the cell of a hit: its place, the fraction num over den of the way, not reduced; and its face.
#[derive(Clone, Copy)]
pub struct Place {
    pub num: u32,
    pub den: u32,
    pub face: Face,
}

// The solid cell where a walk ended.
#[derive(Clone, Copy)]
pub struct Hit {
    pub cell: Cell,
    pub code: u8,
    pub place: Place,
    pub reads: u32,
}

// The answer of a first-hit call that was not refused: clear with the number of reads, or a hit.
#[derive(Clone, Copy)]
pub enum FirstHit {
    Clear(u32),
    Hit(Hit),
}
