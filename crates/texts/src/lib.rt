// The program's lines as bytes, from a place of a lent slice on.
#![tactic(auto)]

ghost use Rattle.std.specs.Prelude.{◌≡◌, [], ◌∷◌, ◌++◌, ◌+◌, ◌≤◌, length};
ghost use Rattle.texts.specs.Text.{decimal, signed_decimal, axis_letter, face_word, parted, ended, cell_fields};
ghost use Rattle.texts.specs.Text.{line_room, hit_line, clear_line, pair_refused_line, venue_refused_line, Puts};
ghost use Rattle.texts.specs.Writing.{HasRoom, Writes};

use cells::{Axis, Cell, Face};

const SPACE: u8 = b' ';

const LINE_FEED: u8 = b'\n';

// ---- fields

// The letter of an axis.
fn axis_letter(n: Axis) -> u8
    ensures { result ≡ axis_letter n }
{
    match n {
        Axis::X => b'x',
        Axis::Y => b'y',
        Axis::Z => b'z',
    }
}

// Bytes that are lent, and the place up to which they are written.
#[derive(Drop)]
struct Pen<'a> {
    out: &'a mut [u8],
    at: usize,
}

impl Pen<'_> {
    // One byte.
    fn byte(&mut self, b: u8)
        requires { HasRoom 1 self.old }
        ensures { Writes (b ∷ []) 1 self.old self.new }
    {
        buffers::put_byte(self.out, self.at, b);
        self.at += 1;
    }

    // A word and the byte that parts it from the next.
    fn word(&mut self, word: &[u8], after: u8)
        requires { HasRoom (length word.now + 1) self.old }
        ensures { Writes (word.now ++ (after ∷ [])) (length word.now + 1) self.old self.new }
    {
        buffers::put(self.out, self.at, word);
        self.at += word.len();
        self.byte(after);
    }

    // A number and the byte that parts it from the next.
    fn number(&mut self, n: u64, after: u8)
        requires { HasRoom 21 self.old }
        ensures { Writes (decimal n ++ (after ∷ [])) 21 self.old self.new }
    {
        let mut text = [0u8; 20];
        let k = io::decimal(n, &mut text);
        self.word(&text[..k], after);
    }

    // A number that may be below 0, and the byte that parts it from the next.
    fn signed(&mut self, v: i32, after: u8)
        requires { HasRoom 22 self.old }
        ensures { Writes (signed_decimal v ++ (after ∷ [])) 22 self.old self.new }
    {
        if v < 0 {
            self.byte(b'-');
        }
        self.number(v.unsigned_abs() as u64, after);
    }

    // The three numbers of a cell.
    fn cell(&mut self, c: Cell)
        requires { HasRoom 66 self.old }
        ensures { Writes (cell_fields c) 66 self.old self.new }
    {
        self.signed(c.x, SPACE);
        self.signed(c.y, SPACE);
        self.signed(c.z, SPACE);
    }

    // The entry face, which ends a line: `0`, or the sign of a move and the letter of its axis.
    fn face(&mut self, f: Face)
        requires { HasRoom 3 self.old }
        ensures { Writes (ended (face_word f)) 3 self.old self.new }
    {
        match f {
            Face::None => self.word(b"0", LINE_FEED),
            Face::Plus(n) => self.word(&[b'+', axis_letter(n)], LINE_FEED),
            Face::Minus(n) => self.word(&[b'-', axis_letter(n)], LINE_FEED),
        }
    }

    // What the line of a walk begins with: `K LETTER `.
    fn walk(&mut self, k: u64, letter: u8)
        requires { HasRoom 23 self.old }
        ensures { Writes (parted (decimal k) ++ parted (letter ∷ [])) 23 self.old self.new }
    {
        self.number(k, SPACE);
        self.word(&[letter], SPACE);
    }

    // The last two fields of a line: a word, and the number that ends the line.
    fn last(&mut self, word: &[u8], n: u32)
        requires { HasRoom (length word.now + 22) self.old }
        ensures { Writes (parted word.now ++ ended (decimal n)) (length word.now + 22) self.old self.new }
    {
        self.word(word, SPACE);
        self.number(n as u64, LINE_FEED);
    }
}

// ---- lines: no `Display`, whose `fmt` answers a `Result` of which no contract says when it is `Ok`. These cannot fail, and their contracts nail the bytes.

// `K LETTER hit x y z code reads face`.
pub fn put_hit(
    out: &mut [u8],
    at: usize,
    k: u64,
    letter: u8,
    c: Cell,
    code: u8,
    reads: u32,
    face: Face,
) -> usize
    requires { at + line_room ≤ length out.old }
    ensures puts { Puts (hit_line k letter c code reads face) at out.old result out.new }
    ensures upper_bound { result ≤ at + 138 }
{
    let mut pen = Pen { out, at };
    pen.walk(k, letter);
    pen.word(b"hit", SPACE);
    pen.cell(c);
    pen.number(code as u64, SPACE);
    pen.number(reads as u64, SPACE);
    pen.face(face);
    pen.at
}

// `K LETTER clear reads`.
pub fn put_clear(out: &mut [u8], at: usize, k: u64, letter: u8, reads: u32) -> usize
    requires { at + line_room ≤ length out.old }
    ensures puts { Puts (clear_line k letter reads) at out.old result out.new }
    ensures upper_bound { result ≤ at + 50 }
{
    let mut pen = Pen { out, at };
    pen.walk(k, letter);
    pen.last(b"clear", reads);
    pen.at
}

// `K refused N`.
pub fn put_pair_refused(out: &mut [u8], at: usize, k: u64, number: u32) -> usize
    requires { at + line_room ≤ length out.old }
    ensures { Puts (pair_refused_line k number) at out.old result out.new }
{
    let mut pen = Pen { out, at };
    pen.number(k, SPACE);
    pen.last(b"refused", number);
    pen.at
}

// `G refused N`.
pub fn put_venue_refused(out: &mut [u8], at: usize, number: u32) -> usize
    requires { at + line_room ≤ length out.old }
    ensures { Puts (venue_refused_line number) at out.old result out.new }
{
    let mut pen = Pen { out, at };
    pen.word(b"G", SPACE);
    pen.last(b"refused", number);
    pen.at
}
