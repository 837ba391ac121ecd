// Venue records written.
ghost use Rattle.std.specs.Prelude.{Ok, ◌≡◌, ◌+◌, ◌≤◌, ◌<◌, length};
ghost use Rattle.buffers.specs.Over.{over};
ghost use Rattle.grids.specs.Grid.{shape};
ghost use Rattle.records.specs.Venues.{cells_from};
ghost use Rattle.records.specs.Writing.{written_version, count_bytes, head_bytes, write_check, WritesVenue};

use crate::venues::venue_head;
use cells::{Counts, Refusal};

// The version that is written.
const VERSION: u8 = 1;

// Refusals 2, 3, then 6.
#[tactic(auto, using(grids::proofs::Shapes::shaped, crate::proofs::HeadTests::head_most), unfolding(crate::specs::Writing::write_check))]
fn write_check(n: Counts, bytes: usize, room: usize) -> Result<(), Refusal>
    ensures { result ≡ write_check n bytes room }
{
    grids::shape(n, bytes)?;
    if room < 4 + venue_head(VERSION) + bytes {
        return Err(Refusal::Room);
    }
    Ok(())
}

// The counts, from the place `at` on: what `buffers` writes goes by a place.
fn put_counts(out: &mut [u8], at: usize, n: Counts)
    requires { (n.nx < 65536) × (n.ny < 65536) × (n.nz < 65536) × (at + 6 ≤ length out.old) }
    ensures { out.new ≡ over at (count_bytes n) out.old }
{
    buffers::put_two(out, at, n.nx);
    buffers::put_two(out, at + 2, n.ny);
    buffers::put_two(out, at + 4, n.nz);
}

// What stands before the cells.
#[tactic(auto, using(grids::proofs::Shapes::shaped, crate::proofs::HeadTests::head_most, crate::proofs::HeadTests::head_least))]
fn put_head(n: Counts, out: &mut [u8], bytes: usize)
    requires { (shape n bytes ≡ Ok tt) × (cells_from written_version ≤ length out.old) }
    ensures { out.new ≡ over 0 (head_bytes written_version n) out.old }
{
    buffers::put_four(out, 0, (venue_head(VERSION) + bytes) as u32);
    buffers::put_byte(out, 4, VERSION);
    put_counts(out, 5, n);
}

// Writes a venue's record at the front of the lent bytes; the rest stays. Answers the number of bytes written, or why none are.
#[tactic(auto, using(crate::proofs::WriteTests::writable, crate::proofs::WriteTests::not_written, crate::proofs::HeadTests::head_most))]
pub fn write_venue(n: Counts, cells: &[u8], out: &mut [u8]) -> Result<usize, Refusal>
    ensures { WritesVenue n cells.now out.old result out.new }
{
    let bytes = cells.len();
    write_check(n, bytes, out.len())?;
    let start = 4 + venue_head(VERSION);
    put_head(n, out, bytes);
    buffers::put(out, start, cells);
    Ok(start + bytes)
}
