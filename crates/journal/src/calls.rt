//! Calls of a ground, and what came of them.
use ground::Counts;
use index::{Pair, Triple};
use mates::EdgeSide;
use refusal::Refusal;

/// The places of a list that a call is handed: so many, from this one on.
// No Range, which is not Copy: calls are copied.
#[derive(Clone, Copy)]
pub struct Part {
    pub from: usize,
    pub places: usize,
}

/// A call that may change an open ground. Orient is handed labels and marks.
#[derive(Clone, Copy)]
pub enum Change {
    Lay(u16, u16, u16, u16),
    Lift(u16),
    Turn(u16),
    Orient(Part, Part),
}

/// A question of a sealed ground. Stars and the skin are handed places for numbers, carry over a
/// net of the ground labels and marks. To find a key, the index is made over so many places.
#[derive(Clone, Copy)]
pub enum Question {
    Counts,
    Changes,
    Reading(u16),
    Opposite(u16),
    Mate(u16, u16),
    Star(u16, Part),
    EdgeStar(u16, u16, Part),
    Skin(Part),
    EdgeSound(u16, u16),
    VertexSound(u16),
    FindFace(Triple, usize),
    FindEdge(Pair, usize),
    CarryTurns(Part, Part),
    CarryCorners(Part, Part),
    CarrySkin(Part, Part),
}

/// A call. Carry goes over a net of the caller's, with labels and marks handed over.
#[derive(Clone, Copy)]
pub enum Call {
    Change(Change),
    Seal,
    Reopen,
    Ask(Question),
    Carry(Part, Part),
}

/// What a call answers if it is not refused.
#[derive(Clone, Copy)]
pub enum Answer {
    Number(usize),
    Done,
    Counted(Counts),
    Reads([u16; 3]),
    Told(Option<u16>),
    Mate(EdgeSide),
    Sound(bool),
}

/// What came of a call: its answer or its refusal, and `None` if it was not made, since the ground did
/// not allow it, open or sealed, or since it hands over more places than there are.
pub type Reply = Option<Result<Answer, Refusal>>;

/// A line of a journal: a call, and what came of it.
#[derive(Clone, Copy)]
pub struct Exchange {
    pub call: Call,
    pub reply: Reply,
}
