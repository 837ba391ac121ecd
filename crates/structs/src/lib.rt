// C's structs: what goes into a call and what it means, and how each answer is flattened into numbers.
#![tactic(auto)]

mod refusals; // what every answer begins with: a refusal as three numbers
mod faces; // an entry face as one number
mod inputs; // the structs that go into a call
mod brick_answers;
mod grid_answers;
mod line_answers;
mod record_answers;
mod sight_answers;
mod walk_answers;

pub use brick_answers::OatTally;
pub use grid_answers::{OatComplete, OatPart, OatVerdict};
pub use inputs::{OatCell, OatCounts, OatManner, OatPlacement, OatPoint, manner, start_of};
pub use line_answers::OatListed;
pub use record_answers::{OatPair, OatVenue, OatWritten};
pub use refusals::OatSaid;
pub use sight_answers::{OatFound, OatSight};
pub use walk_answers::OatHit;
