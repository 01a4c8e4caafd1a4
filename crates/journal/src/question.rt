//! A question of a sealed ground.
ghost use Rattle.ground.specs.Grounds.{plain_sealed};
ghost use Rattle.journal.specs.Tries.{Asks};

use crate::calls::{Answer, Question, Reply};
use crate::desk::Desk;
use crate::found::{find_edge, find_face};
use crate::parts::carry_over;
use ground::Sealed;
use mates::mate;
use nets::{corner_net, edge_sound, vertex_sound};
use skin::skin_net;

// Asks the question, if the lists have the parts that it is handed.
pub(crate) fn ask<L>(ground: &Sealed, question: Question, desk: &mut Desk<L>) -> Reply
    ensures { Asks (plain_sealed ground.now) desk.old question result desk.new }
{
    match question {
        Question::Counts => Some(Ok(Answer::Counted(ground.counts()))),
        Question::Changes => Some(Ok(Answer::Number(usize::from(ground.changes())))),
        Question::Reading(h) => Some(ground.reading(h).map(Answer::Reads)),
        Question::Opposite(h) => Some(ground.opposite(h).map(Answer::Told)),
        Question::Mate(h, place) => Some(mate(ground, h, place).map(Answer::Mate)),
        Question::Star(v, k) => {
            let part = k.within(desk.numbers.len())?;
            Some(ground.star(v, &mut desk.numbers[part]).map(Answer::Number))
        }
        Question::EdgeStar(v, w, k) => {
            let part = k.within(desk.numbers.len())?;
            let listed = ground.edge_star(v, w, &mut desk.numbers[part]);
            Some(listed.map(Answer::Number))
        }
        Question::Skin(k) => {
            let part = k.within(desk.numbers.len())?;
            Some(ground.skin(&mut desk.numbers[part]).map(Answer::Number))
        }
        Question::EdgeSound(v, w) => Some(edge_sound(ground, v, w).map(Answer::Sound)),
        Question::VertexSound(v) => Some(vertex_sound(ground, v).map(Answer::Sound)),
        Question::FindFace(key, places) if places <= 4096 => {
            Some(find_face(ground, key, places).map(Answer::Told))
        }
        Question::FindEdge(key, places) if places <= 12288 => {
            Some(find_edge(ground, key, places).map(Answer::Told))
        }
        Question::FindFace(_, _) | Question::FindEdge(_, _) => None,
        Question::CarryTurns(k, m) => carry_over(&ground.turn_net(), desk.turns, k, desk.marks, m),
        Question::CarryCorners(k, m) => {
            let net = corner_net(ground);
            carry_over(&net, desk.corners, k, desk.marks, m)
        }
        Question::CarrySkin(k, m) => {
            // before the net, which is built from walks round the edges
            let _ = k.within(desk.turns.len())?;
            let _ = m.within(desk.marks.len())?;
            carry_over(&skin_net(ground), desk.turns, k, desk.marks, m)
        }
    }
}
