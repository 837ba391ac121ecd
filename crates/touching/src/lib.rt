// Every cell that a line touches: the list of the touching line, and the first hit along it. Both go from tie to tie, which is of one axis, of two or of
// three, by the decision values of the tripod, which sums move.
#![tactic(auto)]

mod hit;
mod list;

pub use hit::first_touching;
pub use list::line_touching;
