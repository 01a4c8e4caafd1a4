//! One call after the other, as a journal has them.
ghost use Rattle.std.specs.Prelude.{◌≡◌, ℕ, min, Bool, true, length};
ghost use Rattle.ground.specs.Grounds.{plain, plain_sealed};
ghost use Rattle.journal.specs.States.{made, standing, net_of, state_of};
ghost use Rattle.journal.specs.Stages.{ground_of};
ghost use Rattle.journal.specs.Steps.{Step};
ghost use Rattle.journal.specs.Tries.{Asks};
ghost use Rattle.journal.specs.Promise.{Promise, Replayed};

use crate::calls::{Answer, Call, Exchange, Question, Reply};
use crate::change::alter;
use crate::desk::Desk;
use crate::parts::carry_over;
use crate::question::ask;
use crate::stage::Stage;
use carry::{Label, Net};
use ground::{Cell, Open, Sealed, make};

// A question, with the ground that it was asked of.
fn questioned<'a, L>(
    ground: Sealed<'a>,
    question: Question,
    desk: &mut Desk<L>,
) -> (Stage<'a>, Reply)
    ensures asks { Asks (ground_of result.0).plain desk.old question result.1 desk.new }
    ensures stands { ground_of result.0 ≡ standing true (plain_sealed ground.entry) }
{
    let reply = ask(&ground, question, desk);
    (Stage::Sealed(ground), reply)
}

// One call, if the ground allows it.
fn step<'a, N: Net>(
    ground: Stage<'a>,
    call: Call,
    net: &N,
    desk: &mut Desk<N::Label>,
) -> (Stage<'a>, Reply)
    ensures { Step (net_of (N.web net.now) N.Label.Label.kind N.Label.Label.meaning) (state_of (ground_of ground.entry) desk.old) (record { call = call; reply = result.1 }) (state_of (ground_of result.0) desk.new) }
{
    if let Call::Carry(k, m) = call {
        return (ground, carry_over(net, desk.labels, k, desk.marks, m));
    }
    match (ground, call) {
        (Stage::Open(mut ground), Call::Change(change)) => {
            let reply = alter(&mut ground, change, desk);
            (Stage::Open(ground), reply)
        }
        (Stage::Open(ground), Call::Seal) => (Stage::Unasked(ground), Some(Ok(Answer::Done))),
        (Stage::Unasked(ground), Call::Reopen) => (Stage::Open(ground), Some(Ok(Answer::Done))),
        (Stage::Sealed(ground), Call::Reopen) => {
            (Stage::Open(ground.reopen()), Some(Ok(Answer::Done)))
        }
        (Stage::Unasked(ground), Call::Ask(question)) => questioned(ground.seal(), question, desk),
        (Stage::Sealed(ground), Call::Ask(question)) => questioned(ground, question, desk),
        (ground, _) => (ground, None),
    }
}

/// Makes a ground over the places, makes the calls of the journal on it one after the other, and
/// writes down what came of each. Carry goes over the net, and the lists of the desk are handed over
/// in the parts that the calls name. Gives back the ground, open.
pub fn replay<'a, N: Net>(
    places: &'a mut [Cell],
    journal: &mut [Exchange],
    net: &N,
    desk: &mut Desk<N::Label>,
) -> Open<'a>
    ensures promise { Promise N.Label }
    ensures replayed { Replayed (net_of (N.web net.now) N.Label.Label.kind N.Label.Label.meaning) (length places.old) journal.old journal.new (state_of (made (length places.old)) desk.old) (λ b. state_of (standing b (plain result)) desk.new) }
{
    let mut ground = Stage::Open(make(places));
    for exchange in journal.iter_mut() {
        let (next, reply) = step(ground, exchange.call, net, desk);
        ground = next;
        exchange.reply = reply;
    }
    ground.opened()
}
