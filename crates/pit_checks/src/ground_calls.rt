//! Calls on a ground, each with the answer that it must get.
ghost use Rattle.std.specs.Prelude.{◌≤◌};

use ground::{Open, Sealed};
use refusal::Refusal;
use std::process::Abort;

pub(crate) fn lays(
    rt: &impl Abort,
    ground: &mut Open,
    row: [u16; 4],
    answer: Result<u16, Refusal>,
) {
    let [a, b, c, d] = row;
    assert_eq!(rt; ground.lay(a, b, c, d), answer);
}

pub(crate) fn lifts(rt: &impl Abort, ground: &mut Open, t: u16, answer: Result<(), Refusal>) {
    assert_eq!(rt; ground.lift(t), answer);
}

pub(crate) fn turns(rt: &impl Abort, ground: &mut Open, t: u16, answer: Result<(), Refusal>) {
    assert_eq!(rt; ground.turn(t), answer);
}

// Lays n cells, each with three vertices of the one before: 0 1 2 3, 1 2 3 4, and so on.
pub(crate) fn lay_strip(rt: &impl Abort, ground: &mut Open, n: u16)
    requires { n ≤ 4093 }
{
    for t in 0..n {
        lays(rt, ground, [t, t + 1, t + 2, t + 3], Ok(t));
    }
}

// Lays cells that are accepted, of a ground without cells.
pub(crate) fn lay_rows(rt: &impl Abort, ground: &mut Open, rows: &[[u16; 4]]) {
    for (t, row) in (0..u16::MAX).zip(rows) {
        lays(rt, ground, *row, Ok(t));
    }
}

pub(crate) fn reads(rt: &impl Abort, ground: &Sealed, h: u16, answer: Result<[u16; 3], Refusal>) {
    assert_eq!(rt; ground.reading(h), answer);
}

pub(crate) fn opposite_is(
    rt: &impl Abort,
    ground: &Sealed,
    h: u16,
    answer: Result<Option<u16>, Refusal>,
) {
    assert_eq!(rt; ground.opposite(h), answer);
}

// Each is the opposite of the other.
pub(crate) fn are_opposites(rt: &impl Abort, ground: &Sealed, h: u16, g: u16) {
    opposite_is(rt, ground, h, Ok(Some(g)));
    opposite_is(rt, ground, g, Ok(Some(h)));
}

// So many cells, joined triangles and skin triangles.
pub(crate) fn counts_are(rt: &impl Abort, ground: &Sealed, answer: [u16; 3]) {
    let counts = ground.counts();
    assert_eq!(rt; [counts.cells, counts.joined, counts.skin], answer);
}

pub(crate) fn changes_are(rt: &impl Abort, ground: &Sealed, answer: u16) {
    assert_eq!(rt; ground.changes(), answer);
}

// Asks with the first `room` of eight places, which all hold 9; they must hold `after` then.
fn lists<F: FnOnce(&mut [u16]) -> Result<usize, Refusal>>(
    rt: &impl Abort,
    room: usize,
    answer: Result<usize, Refusal>,
    after: [u16; 8],
    ask: F,
)
    requires can { F.IsAlwaysCallable ask }
    requires eight { room ≤ 8 }
{
    let mut out = [9; 8];
    assert_eq!(rt; ask(&mut out[..room]), answer);
    assert_eq!(rt; out, after);
}

pub(crate) fn star_is(
    rt: &impl Abort,
    ground: &Sealed,
    v: u16,
    room: usize,
    answer: Result<usize, Refusal>,
    after: [u16; 8],
)
    requires { room ≤ 8 }
{
    lists(rt, room, answer, after, |out| ground.star(v, out));
}

pub(crate) fn edge_star_is(
    rt: &impl Abort,
    ground: &Sealed,
    edge: [u16; 2],
    room: usize,
    answer: Result<usize, Refusal>,
    after: [u16; 8],
)
    requires { room ≤ 8 }
{
    let [v, w] = edge;
    lists(rt, room, answer, after, |out| ground.edge_star(v, w, out));
}

pub(crate) fn skin_is(
    rt: &impl Abort,
    ground: &Sealed,
    room: usize,
    answer: Result<usize, Refusal>,
    after: [u16; 8],
)
    requires { room ≤ 8 }
{
    lists(rt, room, answer, after, |out| ground.skin(out));
}
