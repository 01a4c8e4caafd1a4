//! A call that may change an open ground.
ghost use Rattle.ground.specs.Grounds.{plain};
ghost use Rattle.journal.specs.Tries.{Alters};

use crate::calls::{Answer, Change, Reply};
use crate::desk::Desk;
use ground::Open;

// Makes the change, if the lists have the parts that it is handed.
pub(crate) fn alter<L>(ground: &mut Open, change: Change, desk: &mut Desk<L>) -> Reply
    ensures { Alters (plain ground.old) desk.old change result (plain ground.new) desk.new }
{
    match change {
        Change::Lay(a, b, c, d) => Some(
            ground
                .lay(a, b, c, d)
                .map(|t| Answer::Number(usize::from(t))),
        ),
        Change::Lift(t) => Some(ground.lift(t).map(|_| Answer::Done)),
        Change::Turn(t) => Some(ground.turn(t).map(|_| Answer::Done)),
        Change::Orient(k, m) => {
            let k = k.within(desk.turns.len())?;
            let m = m.within(desk.marks.len())?;
            let turned = ground.orient(&mut desk.turns[k], &mut desk.marks[m]);
            Some(turned.map(Answer::Number))
        }
    }
}
