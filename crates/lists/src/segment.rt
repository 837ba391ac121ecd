// The segment between two cells.
ghost use Rattle.std.specs.Prelude.{Err, ◌≡◌, MatchResult};
ghost use Rattle.lists.specs.Lists.{ends_check};
ghost use Rattle.lists.specs.Kept.{Measured};

use crate::ends::check_ends;
use cells::{Cell, Refusal};
use tripod::Diffs;

// Two ends within the limit, and their differences.
#[derive(Clone, Copy)]
pub struct Segment {
    pub p: Cell,
    pub q: Cell,
    pub d: Diffs,
    ghost measured: { Measured p q d },
}

impl Segment {
    // From p to q, or refusal 1.
    pub fn between(p: Cell, q: Cell) -> Result<Segment, Refusal>
        ensures { MatchResult result (λ s. (s.p ≡ p) × (s.q ≡ q)) (λ r. ends_check p q ≡ Err r) }
    {
        check_ends(p, q)?;
        Ok(Segment {
            p,
            q,
            d: tripod::measured(p, q),
        })
    }
}
