// Venue records read.
ghost use Rattle.std.specs.Prelude.{◌≡◌, ◌+◌, ◌≤◌, length};
ghost use Rattle.records.specs.Heads.{length_field, announced, version_of};
ghost use Rattle.records.specs.Venues.{venue_version, venue_head, counts_at, venue_in, ReadsVenue, GivesCells};

use crate::heads::{announced, head_check, version_of};
use cells::{Counts, Refusal};

// A venue that was read: its counts, and the part of the bytes that holds its cells, as C is told it. `venue_cells` gives the part itself.
#[derive(Clone, Copy)]
pub struct Venue {
    pub counts: Counts,
    pub start: usize,
    pub long: usize,
}

// The version is the record's own byte, as in `pairs`.
#[tactic(auto, unfolding(crate::specs::Venues::venue_version))]
fn venue_version(version: u8) -> bool
    ensures { result ≡ venue_version version }
{
    version == 1
}

// How many bytes stand between the length and the cells.
#[tactic(auto, unfolding(crate::specs::Venues::venue_head))]
pub(crate) fn venue_head(version: u8) -> usize
    ensures { result ≡ venue_head version }
{
    7
}

fn counts_at(s: &[u8], at: usize) -> Counts
    requires { at + 6 ≤ length s.now }
    ensures { result ≡ counts_at s.now at }
{
    Counts {
        nx: buffers::two_at(s, at),
        ny: buffers::two_at(s, at + 2),
        nz: buffers::two_at(s, at + 4),
    }
}

// The counts and the part of the cells, in a record that is long enough for its head.
#[tactic(auto, using(crate::proofs::HeadTests::head_least))]
fn venue_in(s: &[u8]) -> Venue
    requires { (length_field + announced s.now ≤ length s.now) × (venue_head (version_of s.now) ≤ announced s.now) }
    ensures { result ≡ venue_in s.now }
{
    let head = venue_head(s[4]);
    let start = 4 + head;
    Venue {
        counts: counts_at(s, start - 6),
        start,
        long: buffers::four_at(s, 0) - head,
    }
}

// Reads a venue's record: its counts and where its cells stand. Refusals 10, 11, 10, then 2 and 3. Bytes after the record are not looked at.
#[tactic(auto, using(crate::proofs::HeadTests::opened), unfolding(crate::specs::Venues::venue_read, crate::specs::Venues::venue_check))]
pub fn read_venue(bytes: &[u8]) -> Result<Venue, Refusal>
    ensures { ReadsVenue bytes.now result }
{
    let version = version_of(bytes);
    head_check(
        bytes,
        venue_version(version),
        announced(bytes) < venue_head(version),
    )?;
    let venue = venue_in(bytes);
    grids::shape(venue.counts, venue.long)?;
    Ok(venue)
}

// The part that holds the cells, empty where the venue is refused: the partner of `read_venue`.
#[tactic(auto, using(crate::proofs::HeadTests::part_within), unfolding(crate::specs::Venues::venue_cells))]
pub fn venue_cells(bytes: &[u8]) -> &[u8]
    ensures { GivesCells bytes.entry result }
{
    match read_venue(bytes) {
        Ok(venue) => &bytes[venue.start..venue.start + venue.long],
        Err(_) => &bytes[..0],
    }
}
