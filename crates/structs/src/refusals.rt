// What every answer for C begins with: a refusal as three numbers.
ghost use Rattle.std.specs.Prelude.{◌≡◌};
ghost use Rattle.structs.specs.Refusals.{end_number, axis_number, part_number, said_at, flat_refusal};

use cells::{Axis, End, Part, Refusal};

// What an answer begins with: the refusal's number, 0 where the call was accepted; the end (1 P, 2 Q) and the axis (1 x, 2 y, 3 z, or 4 the edge of
// a cell) that it names, 0 for none.
#[repr(C)]
#[derive(Clone, Copy)]
pub struct OatSaid {
    pub refusal: u32,
    pub end: u32,
    pub axis: u32,
}

// Of a call that was accepted.
pub(crate) const ACCEPTED: OatSaid = OatSaid {
    refusal: 0,
    end: 0,
    axis: 0,
};

// The numbers of ends, axes and parts are C's, and so no `From` of the types, which belong to `cells`.
fn end_code(e: End) -> u32
    ensures { result ≡ end_number e }
{
    match e {
        End::P => 1,
        End::Q => 2,
    }
}

pub(crate) fn axis_code(a: Axis) -> u32
    ensures { result ≡ axis_number a }
{
    match a {
        Axis::X => 1,
        Axis::Y => 2,
        Axis::Z => 3,
    }
}

fn part_code(p: Part) -> u32
    ensures { result ≡ part_number p }
{
    match p {
        Part::OriginX => 1,
        Part::OriginY => 2,
        Part::OriginZ => 3,
        Part::Edge => 4,
    }
}

// Of a refusal that names an end and an axis.
fn at_end(number: u32, e: End, a: Axis) -> OatSaid
    ensures { result ≡ said_at number (end_number e) (axis_number a) }
{
    OatSaid {
        refusal: number,
        end: end_code(e),
        axis: axis_code(a),
    }
}

// Of one that names no end: its axis, or part of a placement, by number, 0 for none.
fn at_axis(number: u32, axis: u32) -> OatSaid
    ensures { result ≡ said_at number 0 axis }
{
    OatSaid {
        refusal: number,
        end: 0,
        axis,
    }
}

// Of a call that was refused. One match for end and axis: with two, what is made of it is too long to stand within the calls for C.
impl From<Refusal> for OatSaid {
    ghost from_gives = { λ r s. s ≡ flat_refusal r };

    fn from(r: Refusal) -> OatSaid {
        let number = cells::number(r);
        match r {
            Refusal::Limit(e, a) => at_end(number, e, a),
            Refusal::OffGrid(e, a) => at_end(number, e, a),
            Refusal::NotFinite(e, a) => at_end(number, e, a),
            Refusal::OffSurvey(e, a) => at_end(number, e, a),
            Refusal::Count(a) => at_axis(number, axis_code(a)),
            Refusal::Placement(p) => at_axis(number, part_code(p)),
            Refusal::Bytes
            | Refusal::Layer
            | Refusal::Room
            | Refusal::Record
            | Refusal::Version
            | Refusal::NoRule
            | Refusal::Stale
            | Refusal::Corners => at_axis(number, 0),
        }
    }
}
