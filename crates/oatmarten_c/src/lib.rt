// The archive for C: each call of `oatmarten` under its name, with the clauses that it has there. The numbers, the memory and the answers are the same.
#![tactic(auto)]

mod brick_calls;
mod grid_calls;
mod line_calls;
mod record_calls;
mod revision;
mod sight_calls;
mod walk_calls;
