// The calls for C: each hands its inputs to the proved call and flattens the answer into a struct of numbers. One call more
// says which revision of the header the library is. Each call of C is a function of its own, also where two read alike.
#![tactic(auto)]

mod brick_calls;
mod grid_calls;
mod line_calls;
mod record_calls;
mod revision;
mod sight_calls;
mod walk_calls;

pub use brick_calls::{oat_build, oat_refill, oat_set};
pub use grid_calls::{oat_complete, oat_layer, oat_mark};
pub use line_calls::{oat_line_touching, oat_line6, oat_line26};
pub use record_calls::{oat_read_pair, oat_read_venue, oat_write_venue};
pub use revision::oat_revision;
pub use sight_calls::{oat_cell_of, oat_sight};
pub use walk_calls::{oat_adaptive, oat_adaptive_cells, oat_plain, oat_touching};
