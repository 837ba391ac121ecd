// Records: venues read and written, pairs read. Big-endian; four bytes, the length of what follows, stand first, then the version.
#![tactic(auto)]

mod heads; // what both records begin with
mod pairs;
mod venues;
mod writing;

pub use pairs::{Pair, read_pair};
pub use venues::{Venue, read_venue, venue_cells};
pub use writing::write_venue;
