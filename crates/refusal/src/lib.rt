//! Why a call says no: one list of causes for the whole project.
#![tactic(auto)]

ghost use Rattle.std.specs.Prelude.{◌≡◌};
ghost use Rattle.refusal.specs.Numbers.{number_of};

/// The causes, in the order in which they are looked for: first what was handed in, then how the
/// ground or the net stands.
#[derive(Clone, Copy, PartialEq, Eq, Debug)]
pub enum Refusal {
    /// a vertex number is above 4,095
    VertexTooHigh = 1,
    /// two vertices named in one call are equal
    VerticesEqual = 2,
    /// a list or line handed over has too few places
    ListTooShort = 3,
    /// an edge place is above 2
    EdgePlaceTooHigh = 4,
    /// a line of a work list has another form
    LineMalformed = 5,
    /// the line that closes a work list is wrong, not the last, or missing
    WronglyClosed = 6,
    /// a work list has more than 65,536 bytes
    TextTooLong = 7,
    /// no cell place is free
    NoFreePlace = 11,
    /// a cell on the same four vertices is there
    CellPresent = 12,
    /// a triangle of the new cell is in two cells already
    TriangleTaken = 13,
    /// the number names no cell or half-face
    NoSuchNumber = 14,
    /// no labels agree over the net
    NoLabelsAgree = 15,
    /// the edge or vertex is in no cell
    InNoCell = 16,
    /// the half-face is joined, so it has no mate
    HalfFaceJoined = 17,
}

impl Refusal {
    /// The number that stands for the refusal in an answer.
    // No `From` beside it, which would say the same under a second name.
    pub fn number(self) -> u16
        ensures { result ≡ number_of self }
    {
        self as u16
    }
}
