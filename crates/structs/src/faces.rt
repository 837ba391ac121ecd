// The entry face of a hit for C, as one number. Which sign a hit has cannot be foreseen, so it is chosen, not branched on: no match has both signs.
ghost use Rattle.std.specs.Prelude.{◌≡◌};
ghost use Rattle.structs.specs.Faces.{face_axis, falls, face_number};

use crate::refusals::axis_code;
use cells::Face;

// The number of the axis, 1 x, 2 y, 3 z; 0 for no face.
fn face_axis(f: Face) -> u32
    ensures { result ≡ face_axis f }
{
    match f {
        Face::None => 0,
        Face::Plus(a) | Face::Minus(a) => axis_code(a),
    }
}

// Whether the move is to smaller numbers.
fn falls(f: Face) -> bool
    ensures { result ≡ falls f }
{
    matches!(f, Face::Minus(_))
}

// The number of the axis with the sign of the move.
pub(crate) fn face_code(f: Face) -> i32
    ensures { result ≡ face_number f }
{
    let n = face_axis(f) as i32;
    if falls(f) { -n } else { n }
}
