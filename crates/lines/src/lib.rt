// Theory only: what a 6-line, a 26-line and a touching line are stands in specs/, the laws about them in proofs/. The types are what the code keeps of a
// line on its way, as the definitions name it.
#![tactic(auto)]

use cells::Axis;

// The axes in the order in which a line takes them where it could cross the faces of two or three at one point.
#[derive(Clone, Copy)]
pub enum Order {
    Yzx,
    Xzy,
}

// The three decision values of figure 6.
#[derive(Clone, Copy)]
pub struct Tripod {
    pub xy: i32,
    pub xz: i32,
    pub zy: i32,
}

// Twice the differences: figure 6's A2, B2, C2.
#[derive(Clone, Copy)]
pub struct Doubled {
    pub a2: i32,
    pub b2: i32,
    pub c2: i32,
}

// The axes whose faces a line crosses next, at one point: one of them, two in the order y, z, x, or all three.
#[derive(Clone, Copy)]
pub enum Tie {
    One(Axis),
    Two(Axis, Axis),
    Three,
}
