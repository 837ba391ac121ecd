// The program `sightlines`: a venue and then pairs come in on standard input, and what the walks between each pair's ends find goes out on standard
// output. What is written is decided by the steps of `program`; here frames are read and texts are written. A read or a write that fails ends it, with
// one line on standard error.
#![tactic(auto)]

ghost use Rattle.std.specs.Prelude.{◌≡◌, ℕ, ◌+◌, ◌-◌, ◌^◌, ◌≤◌, ◌<◌, length, take};
ghost use Rattle.std.specs.Counts.{IsPrefixLen as Count};
ghost use Rattle.records.specs.Heads.{length_field};
ghost use Rattle.program.specs.Program.{frame, Follows};

use cells::Counts;
use std::io;
use std::io::Read;

// Reads until buf is full, the input ends or a read fails. Answers how many bytes came, and the error of a read that failed.
fn read_full(rt: &HostRuntime, buf: &mut [u8]) -> (usize, io::Result<()>)
    ensures { Count result.0 buf.new }
{
    let mut done = 0;
    // each turn goes on by what came
    while done < buf.len() {
        match rt.stdin().read(&mut buf[done..]) {
            Ok(0) => return (done, Ok(())),
            Ok(n) => done += n,
            Err(e) => return (done, Err(e)),
        }
    }
    (done, Ok(()))
}

// Reads the next frame: the four bytes of the length and, unless that is above the most, as many bytes as it announces; or what there is. Answers
// how many came, and the error of a read that failed.
fn read_frame(rt: &HostRuntime, buf: &mut [u8], most: usize) -> (usize, io::Result<()>)
    requires { length_field + most ≤ length buf.old }
    ensures count { Count result.0 buf.new }
    ensures one_frame { frame most (take result.0 buf.new) ≡ take result.0 buf.new }
{
    let (got, came) = read_full(rt, &mut buf[..4]);
    if got < 4 {
        return (got, came);
    }
    if program::beyond(&buf[..4], most) {
        return (4, came);
    }
    let end = 4 + buffers::four_at(buf, 0);
    let (more, came) = read_full(rt, &mut buf[4..end]);
    (4 + more, came)
}

// The text of an error without its number, which std puts behind it.
fn without_number(said: &str) -> &str {
    said.split_once(" (os error ")
        .map_or(said, |(text, _)| text)
}

// Says on standard error what failed, with the system's text of the error.
fn fail(rt: &HostRuntime, what: &str, e: io::Error) {
    let _ = match e.to_string(rt.alloc()) {
        Ok(said) => {
            let text = without_number(said.as_str());
            eprintln!(rt; "{what}: {text}")
        }
        Err(_) => eprintln!(rt; "{what}: {e}"),
    };
}

// Where nothing comes next because the input could not be read, says so on standard error. A failed read gives a short frame, as an end of the input
// does; what tells them apart is the error.
fn say_unread(rt: &HostRuntime, next: Option<u64>, came: io::Result<()>) {
    if let (None, Err(e)) = (next, came) {
        fail(rt, "sightlines: standard input cannot be read", e);
    }
}

// What comes next, once the text is written. A write that fails is told on standard error and ends the program; nothing more is told then.
fn written(rt: &HostRuntime, text: &[u8], next: Option<u64>, came: io::Result<()>) -> Option<u64>
    ensures { (k : ℕ) → Follows k next → Follows k result }
{
    if let Err(e) = rt.write_all(text) {
        fail(rt, "sightlines: standard output cannot be written", e);
        return None;
    }
    say_unread(rt, next, came);
    next
}

// Writes what the venue's step says.
fn answer_venue(rt: &HostRuntime, frame: &[u8], came: io::Result<()>) -> Option<u64> {
    let mut text = [0u8; program::TEXT_ROOM];
    let step = program::venue_step(frame, &mut text);
    written(rt, &text[..step.long], step.next, came)
}

// Reads pair k and writes what its step says.
fn answer_pair(rt: &HostRuntime, n: Counts, cells: &[u8], k: u64) -> Option<u64>
    requires { k < 2 ^ 64 - 1 }
    ensures { Follows k result }
{
    let mut space = [0u8; 259];
    let mut text = [0u8; program::TEXT_ROOM];
    let (got, came) = read_frame(rt, &mut space, program::PAIR_MOST);
    let step = program::pair_step(n, cells, k, &space[..got], &mut text);
    written(rt, &text[..step.long], step.next, came)
}

// Pair after pair, until nothing comes next: each turn goes on with the number that the last one's step gave, so nothing is counted here and no range is
// gone through. Nothing can say that input ends, so pairs are read up to a number that no run reaches.
fn answer_pairs(rt: &HostRuntime, n: Counts, cells: &[u8], first: u64) {
    let mut next = Some(first);
    while let Some(k) = next
        && k < u64::MAX
    {
        next = answer_pair(rt, n, cells, k);
    }
}

fn main(rt: HostRuntime) {
    let mut space = [0u8; 65536];
    let (got, came) = read_frame(&rt, &mut space, program::VENUE_MOST);
    let frame = &space[..got];
    if let Some(first) = answer_venue(&rt, frame, came)
        && let Ok(venue) = records::read_venue(frame)
    {
        answer_pairs(&rt, venue.counts, records::venue_cells(frame), first);
    }
}
