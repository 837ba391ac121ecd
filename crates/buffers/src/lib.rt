// Lent slices of bytes: pieces stored in them, and big-endian numbers read and stored.
#![tactic(auto)]

ghost use Rattle.std.specs.Prelude.{◌≡◌, [], ◌∷◌, ◌+◌, ◌≤◌, ◌<◌, length};
ghost use Rattle.buffers.specs.Over.{over};
ghost use Rattle.buffers.specs.Numbers.{two_at, four_at, two, four};

// One byte at a place.
#[tactic(auto, using(crate::proofs::Over::set_over))]
pub fn put_byte(out: &mut [u8], at: usize, b: u8)
    requires { at < length out.old }
    ensures { out.new ≡ over at (b ∷ []) out.old }
{
    out[at] = b;
}

// A piece from a place on.
#[tactic(auto, using(crate::proofs::Over::lent_over))]
pub fn put(out: &mut [u8], at: usize, piece: &[u8])
    requires { at + length piece.now ≤ length out.old }
    ensures { out.new ≡ over at piece.now out.old }
{
    out[at..at + piece.len()].copy_from_slice(piece);
}

// The number in the two bytes from a place on.
pub fn two_at(s: &[u8], at: usize) -> u32
    requires { at + 2 ≤ length s.now }
    ensures { (result ≡ two_at s.now at) × (result < 65536) }
{
    u16::from_be_bytes([s[at], s[at + 1]]) as u32
}

// The number in the four bytes from a place on.
pub fn four_at(s: &[u8], at: usize) -> usize
    requires { at + 4 ≤ length s.now }
    ensures { (result ≡ four_at s.now at) × (result < 4294967296) }
{
    u32::from_be_bytes([s[at], s[at + 1], s[at + 2], s[at + 3]]) as usize
}

// A number as two bytes, from a place on.
pub fn put_two(out: &mut [u8], at: usize, v: u32)
    requires { (v < 65536) × (at + 2 ≤ length out.old) }
    ensures { out.new ≡ over at (two v) out.old }
{
    put(out, at, &(v as u16).to_be_bytes());
}

// A number as four bytes, from a place on.
pub fn put_four(out: &mut [u8], at: usize, v: u32)
    requires { at + 4 ≤ length out.old }
    ensures { out.new ≡ over at (four v) out.old }
{
    put(out, at, &v.to_be_bytes());
}
