// The program's steps: each takes the next frame of the input, and gives the text and what comes next.
#![tactic(auto)]

ghost use Rattle.std.specs.Prelude.{Ok, Err, ◌≡◌, ◌+◌, ◌-◌, ◌^◌, ◌≤◌, ◌<◌, cond, length};
ghost use Rattle.std.specs.Counts.{IsPrefixLen as Count};
ghost use Rattle.cells.specs.declared.Refusal.TheVariants.{Room, Record};
ghost use Rattle.records.specs.Pairs.{pair_read};
ghost use Rattle.records.specs.Venues.{venue_read};
ghost use Rattle.texts.specs.Text.{line_room, Puts};
ghost use Rattle.program.specs.Program.{venue_most, pair_most, beyond, venue_said, after_refusal, pair_refused, walk_line};
ghost use Rattle.program.specs.Program.{said_of_pair, pair_said, text_room, Says, SaysOrRefuses, Follows};

use cells::{Counts, Manner, Refusal, Start};
use records::{Pair, Venue};
use walks::FirstHit;

// The longest venue and the longest pair that the program reads, as their four bytes announce them.
pub const VENUE_MOST: usize = 65532;

pub const PAIR_MOST: usize = 255;

// Room for what a step writes: a line for each walk, of at most 160 bytes.
pub const TEXT_ROOM: usize = 320;

// What a step gives: how many bytes of text stand in the lent bytes, and what comes next: the pair of a number, or nothing any more. The
// text is no part that is handed back: claims speak of its length in the bytes that were lent.
#[derive(Clone, Copy)]
pub struct Step {
    pub long: usize,
    pub next: Option<u64>,
}

// Whether the length that stands at the front is above the most.
#[tactic(auto, unfolding(crate::specs::Program::beyond))]
pub fn beyond(s: &[u8], most: usize) -> bool
    ensures { result ≡ beyond most s.now }
{
    4 <= s.len() && most < buffers::four_at(s, 0)
}

// ---- the venue

// The venue in a frame: refused by 6 where it is too long, before it is read.
fn venue_in(frame: &[u8]) -> Result<Venue, Refusal>
    ensures { result ≡ cond (beyond venue_most frame.now) (Err Room) (venue_read frame.now) }
{
    if beyond(frame, VENUE_MOST) {
        return Err(Refusal::Room);
    }
    records::read_venue(frame)
}

// The venue's frame: nothing to write and on to the pairs, or `G refused N` and the end.
#[tactic(auto, using(crate::proofs::Front::silent, crate::proofs::Front::counts), unfolding(crate::specs::Program::venue_said))]
pub fn venue_step(frame: &[u8], text: &mut [u8]) -> Step
    requires { text_room ≤ length text.old }
    ensures says { Says (venue_said frame.now) text.old result text.new }
    ensures count { Count result.long text.new }
{
    match venue_in(frame) {
        Ok(_) => Step {
            long: 0,
            next: Some(1),
        },
        Err(r) => Step {
            long: texts::put_venue_refused(text, 0, cells::number(r)),
            next: None,
        },
    }
}

// ---- a pair

// What comes after a pair that is refused by this number: nothing after 10 or 11.
fn after_refusal(k: u64, number: u32) -> Option<u64>
    requires { k < 2 ^ 64 - 1 }
    ensures { result ≡ after_refusal k number }
{
    match number {
        10 | 11 => None,
        _ => Some(k + 1),
    }
}

// `K refused N`, and what comes next.
fn pair_refused(k: u64, r: Refusal, text: &mut [u8]) -> Step
    requires { (k < 2 ^ 64 - 1) × (line_room ≤ length text.old) }
    ensures { Says (pair_refused k r) text.old result text.new }
{
    let number = cells::number(r);
    Step {
        long: texts::put_pair_refused(text, 0, k, number),
        next: after_refusal(k, number),
    }
}

// The line of one walk, from a place on; answers the place after it. Slice and place, and number and letter, are the parameters of `texts::put_hit`, which
// is public.
#[tactic(auto, unfolding(crate::specs::Program::walk_line))]
fn walk_line(text: &mut [u8], at: usize, k: u64, letter: u8, a: FirstHit) -> usize
    requires { at + line_room ≤ length text.old }
    ensures puts { Puts (walk_line k letter (Ok a)) at text.old result text.new }
    ensures upper_bound { result ≤ at + line_room }
{
    match a {
        FirstHit::Clear(reads) => texts::put_clear(text, at, k, letter, reads),
        FirstHit::Hit(h) => texts::put_hit(
            text,
            at,
            k,
            letter,
            h.cell,
            h.code,
            h.reads,
            h.place.face,
        ),
    }
}

// A line for each walk between the ends of a pair, one behind the other: the start is tested, ties go by the pair's rule. Where the walks are refused,
// each is, and nothing is written.
#[tactic(auto, using(crate::proofs::Walked::lines_refused))]
fn walk_lines(n: Counts, cells: &[u8], k: u64, e: Pair, text: &mut [u8]) -> Result<usize, Refusal>
    requires { text_room ≤ length text.old }
    ensures { SaysOrRefuses k (said_of_pair n cells.now k (Ok e)) text.old result text.new }
{
    let how = Manner {
        start: Start::Tested,
        rule: e.rule,
    };
    let plain = hits::first_plain(n, cells, e.p, e.q, how)?;
    let adaptive = hits::first_adaptive(n, cells, e.p, e.q, how)?;
    let next = walk_line(text, 0, k, b'P', plain);
    Ok(walk_line(text, next, k, b'A', adaptive))
}

// The lines of the pair in a frame: refused by 10 where it is too long, before it is read.
fn pair_lines(
    n: Counts,
    cells: &[u8],
    k: u64,
    frame: &[u8],
    text: &mut [u8],
) -> Result<usize, Refusal>
    requires { text_room ≤ length text.old }
    ensures { SaysOrRefuses k (cond (beyond pair_most frame.now) (pair_refused k Record) (said_of_pair n cells.now k (pair_read frame.now)))
        text.old result text.new }
{
    if beyond(frame, PAIR_MOST) {
        return Err(Refusal::Record);
    }
    let pair = records::read_pair(frame)?;
    walk_lines(n, cells, k, pair, text)
}

// The frame of pair k: a line for each walk or `K refused N`, and on to the next or the end.
#[tactic(auto, using(crate::proofs::Front::silent), unfolding(crate::specs::Program::pair_said))]
pub fn pair_step(n: Counts, cells: &[u8], k: u64, frame: &[u8], text: &mut [u8]) -> Step
    requires { (k < 2 ^ 64 - 1) × (text_room ≤ length text.old) }
    ensures says { Says (pair_said n cells.now k frame.now) text.old result text.new }
    ensures count { Count result.long text.new × Follows k result.next }
{
    if frame.is_empty() {
        return Step {
            long: 0,
            next: None,
        };
    }
    match pair_lines(n, cells, k, frame, text) {
        Ok(long) => Step {
            long,
            next: Some(k + 1),
        },
        Err(r) => pair_refused(k, r, text),
    }
}
