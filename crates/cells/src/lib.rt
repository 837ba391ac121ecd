// The shared words: axes, ends, cells, counts, entry faces, how a walk is made, the four parts of a placement, and the refusals.
#![tactic(auto)]

ghost use Rattle.std.specs.Prelude.{◌≡◌};
ghost use Rattle.cells.specs.Manners.{is_tested, usual, rule_of, rule_check, rule_named};
ghost use Rattle.cells.specs.Refusals.{NumberOf};

// The three axes.
#[derive(Clone, Copy)]
pub enum Axis {
    X,
    Y,
    Z,
}

// The two ends of a line: it runs from P to Q.
#[derive(Clone, Copy)]
pub enum End {
    P,
    Q,
}

// A cell of the integer lattice.
#[derive(Clone, Copy)]
pub struct Cell {
    pub x: i32,
    pub y: i32,
    pub z: i32,
}

// One of something for each axis. `Cell` and `Counts` stay types of their own: each is a word of the README, and no function is the same over two of them.
#[derive(Clone, Copy)]
pub struct Each<T> {
    pub x: T,
    pub y: T,
    pub z: T,
}

// The face by which a line came into a cell: none where it starts there, else the axis with the sign of the move. The case for none is no `Option`'s, since
// SCOPE's F13 gives each case a word.
#[derive(Clone, Copy)]
pub enum Face {
    None,
    // the line moves to larger numbers on the axis
    Plus(Axis),
    // to smaller ones
    Minus(Axis),
}

// How many cells a grid has along each axis.
#[derive(Clone, Copy)]
pub struct Counts {
    pub nx: u32,
    pub ny: u32,
    pub nz: u32,
}

// Whether a walk tests the cell that it starts from.
#[derive(Clone, Copy)]
pub enum Start {
    // solid there is no hit, and counts as near
    Untested,
    // like every other cell
    Tested,
}

// Which face a line crosses first where it could cross two or three at one point.
#[derive(Clone, Copy)]
pub enum Rule {
    // that of y, then of z, then of x
    One,
    // the same from the end that comes first by z, then y, then x; from the other the reverse, so that the line back is the mirror
    Two,
}

// How a walk is made, as its caller names it.
#[derive(Clone, Copy)]
pub struct Manner {
    pub start: Start,
    pub rule: Rule,
}

impl Manner {
    // Where a caller asks for nothing else: a camera is not blocked by its own housing.
    pub fn usual() -> Manner
        ensures { result ≡ usual }
    {
        Manner {
            start: Start::Untested,
            rule: Rule::One,
        }
    }

    // Whether the start is tested.
    pub fn tests_start(self) -> bool
        ensures { result ≡ is_tested self.start }
    {
        match self.start {
            Start::Untested => false,
            Start::Tested => true,
        }
    }
}

// The four parts of a placement: its origin's three values and the cell edge.
#[derive(Clone, Copy)]
pub enum Part {
    OriginX,
    OriginY,
    OriginZ,
    Edge,
}

// Why a call refuses, a case for each refusal number; the number is in the definition `told`.
#[derive(Clone, Copy)]
pub enum Refusal {
    // 1: a line end outside the coordinate limit
    Limit(End, Axis),
    // 2: a count outside 1 to 1,024
    Count(Axis),
    // 3: cell bytes not nx·ny·nz
    Bytes,
    // 4: layer z below 0 or not below nz
    Layer,
    // 5: an end outside the grid
    OffGrid(End, Axis),
    // 6: too little room
    Room,
    // 7: an origin value or edge not finite, or edge not above 0
    Placement(Part),
    // 8: a surveyed value not finite
    NotFinite(End, Axis),
    // 9: a surveyed value outside
    OffSurvey(End, Axis),
    // 10: a record cut short or of the wrong length
    Record,
    // 11: a version that is not known
    Version,
    // 12: a number that names no rule
    NoRule,
    // 13: a mask that is not what the bytes give, or a total that cannot be right
    Stale,
    // 14: a low corner above the high one
    Corners,
}

// The number of a refusal, for C and for the program's lines: the kinds are cases everywhere else.
pub fn number(r: Refusal) -> u32
    ensures { NumberOf r result }
{
    match r {
        Refusal::Limit(_, _) => 1,
        Refusal::Count(_) => 2,
        Refusal::Bytes => 3,
        Refusal::Layer => 4,
        Refusal::OffGrid(_, _) => 5,
        Refusal::Room => 6,
        Refusal::Placement(_) => 7,
        Refusal::NotFinite(_, _) => 8,
        Refusal::OffSurvey(_, _) => 9,
        Refusal::Record => 10,
        Refusal::Version => 11,
        Refusal::NoRule => 12,
        Refusal::Stale => 13,
        Refusal::Corners => 14,
    }
}

// Refusal 12 unless the number names a rule. It and `rule_of`, which cannot fail, stand beside `Rule::try_from`: claims speak of both (`Ties`).
#[tactic(auto, unfolding(crate::specs::Manners::rule_check))]
pub fn check_rule(number: u32) -> Result<(), Refusal>
    ensures { result ≡ rule_check number }
{
    match number {
        1 | 2 => Ok(()),
        _ => Err(Refusal::NoRule),
    }
}

// The rule that a number names.
#[tactic(auto, unfolding(crate::specs::Manners::rule_of))]
pub fn rule_of(number: u32) -> Rule
    ensures { result ≡ rule_of number }
{
    if number == 2 { Rule::Two } else { Rule::One }
}

impl TryFrom<u32> for Rule {
    type Error = Refusal;

    ghost try_from_gives = { λ number r. r ≡ rule_named number };

    fn try_from(number: u32) -> Result<Self, Refusal> {
        check_rule(number)?;
        Ok(rule_of(number))
    }
}
