//! The journal of one station.
use index::{Pair, Triple};
use journal::{Call, Change, Exchange, Part, Question};

// A line whose call is still to be made.
fn to_make(call: Call) -> Exchange {
    Exchange { call, reply: None }
}

fn change(change: Change) -> Exchange {
    to_make(Call::Change(change))
}

fn orient(labels: usize, marks: usize) -> Exchange {
    change(Change::Orient(first(labels), first(marks)))
}

fn ask(question: Question) -> Exchange {
    to_make(Call::Ask(question))
}

// So many places of a list, from this one on.
fn part(from: usize, places: usize) -> Part {
    Part { from, places }
}

// The first places of a list.
fn first(places: usize) -> Part {
    part(0, places)
}

// The firm lays the pit round the first tank, one cell the wrong way round, and orients it. It seals
// the model and asks what the solver wants to know. The fuel company reopens it, lays the cells
// round a second tank, is refused some, and seals it again.
pub(crate) fn station() -> [Exchange; 36] {
    [
        change(Change::Lay(0, 1, 2, 3)),
        change(Change::Lay(4, 1, 2, 3)),
        change(Change::Lay(2, 3, 4, 5)),
        change(Change::Lay(0, 1, 2, 2)),
        orient(2, 2),
        orient(8, 8),
        change(Change::Lift(7)),
        to_make(Call::Seal),
        ask(Question::Counts),
        ask(Question::Changes),
        ask(Question::Reading(4)),
        ask(Question::Opposite(0)),
        ask(Question::Opposite(1)),
        ask(Question::Mate(1, 0)),
        ask(Question::Mate(0, 0)),
        ask(Question::Star(4, first(8))),
        ask(Question::EdgeStar(2, 3, part(8, 8))),
        ask(Question::Skin(part(16, 16))),
        ask(Question::EdgeSound(2, 3)),
        ask(Question::VertexSound(3)),
        ask(Question::FindFace(
            Triple {
                first: 1,
                second: 2,
                third: 3,
            },
            16,
        )),
        ask(Question::FindEdge(
            Pair {
                first: 2,
                second: 3,
            },
            4,
        )),
        ask(Question::CarryTurns(first(8), first(8))),
        ask(Question::CarryCorners(first(8), first(8))),
        ask(Question::CarrySkin(first(32), first(32))),
        to_make(Call::Carry(first(4), first(4))),
        change(Change::Turn(0)),
        to_make(Call::Reopen),
        change(Change::Lay(3, 4, 5, 6)),
        change(Change::Lay(4, 5, 6, 7)),
        change(Change::Lay(8, 2, 3, 4)),
        change(Change::Lay(3, 6, 4, 5)),
        change(Change::Lay(7, 6, 5, 8)),
        orient(8, 8),
        to_make(Call::Seal),
        ask(Question::Counts),
    ]
}
