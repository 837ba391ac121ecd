// Pair records read.
ghost use Rattle.std.specs.Prelude.{◌≡◌, ◌+◌, ◌≤◌, ◌<◌, length};
ghost use Rattle.records.specs.Pairs.{signed, pair_version, pair_length, cell_in, rule_byte, ReadsPair};

use crate::heads::{announced, head_check, version_of};
use cells::{Cell, Refusal, Rule};

// A pair that was read: the ends P and Q of a line, and the rule of its ties.
#[derive(Clone, Copy)]
pub struct Pair {
    pub p: Cell,
    pub q: Cell,
    pub rule: Rule,
}

// Two's complement.
#[tactic(auto, unfolding(crate::specs::Pairs::signed))]
fn signed(v: u32) -> i32
    requires { v < 65536 }
    ensures { result ≡ signed v }
{
    (v as u16).cast_signed() as i32
}

// Versions are the records' own bytes, over which the definitions are (`pair_length`, `venue_head`), and no enum.
#[tactic(auto, unfolding(crate::specs::Pairs::pair_version))]
fn pair_version(version: u8) -> bool
    ensures { result ≡ pair_version version }
{
    version == 1 || version == 2
}

#[tactic(auto, unfolding(crate::specs::Pairs::pair_length))]
fn pair_length(version: u8) -> usize
    ensures { result ≡ pair_length version }
{
    if version == 2 { 14 } else { 13 }
}

fn cell_in(s: &[u8], at: usize) -> Cell
    requires { at + 6 ≤ length s.now }
    ensures { result ≡ cell_in s.now at }
{
    Cell {
        x: signed(buffers::two_at(s, at)),
        y: signed(buffers::two_at(s, at + 2)),
        z: signed(buffers::two_at(s, at + 4)),
    }
}

// The number that names the rule: the last byte in version 2, else 1.
#[tactic(auto, unfolding(crate::specs::Pairs::rule_byte))]
fn rule_byte(s: &[u8]) -> u32
    ensures { result ≡ rule_byte s.now }
{
    if version_of(s) == 2 {
        s.get(17).copied().unwrap_or(0) as u32
    } else {
        1
    }
}

// Reads a pair's record: P, Q and the rule. Refusals 10, 11, 10, then 12. Bytes after the record are not looked at.
#[tactic(auto, using(crate::proofs::HeadTests::opened), unfolding(crate::specs::Pairs::pair_read, crate::specs::Pairs::pair_check))]
pub fn read_pair(bytes: &[u8]) -> Result<Pair, Refusal>
    ensures { ReadsPair bytes.now result }
{
    let version = version_of(bytes);
    head_check(
        bytes,
        pair_version(version),
        announced(bytes) != pair_length(version),
    )?;
    let rule = Rule::try_from(rule_byte(bytes))?;
    let p = cell_in(bytes, 5);
    let q = cell_in(bytes, 11);
    Ok(Pair { p, q, rule })
}
