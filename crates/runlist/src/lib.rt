//! One order of a work list carried out on a ground, and the line of its answer.
#![tactic(auto)]

ghost use Rattle.std.specs.Prelude.{◌≡◌, ◌<◌, [], ◌∷◌, slice_index};
ghost use Rattle.ground.specs.Grounds.{plain, plain_sealed};
ghost use Rattle.worklist.specs.AnswerLines.{Lined};
ghost use Rattle.worklist.specs.declared.order.Order.TheVariants.{Lay, Lift, Turn as TurnCell, Orient, CellsAtVertex, CellsAtEdge, Counts};
ghost use Rattle.runlist.specs.Obeyed.{answer, Said};

use carry::Turn;
use ground::{Open, Sealed};
use refusal::Refusal;
use std::convert::AsSlice;
use worklist::{Answer, Order};

// The line of an order that is accepted, with the numbers that answer it, or refused.
fn say<A: AsSlice<u16> + Drop>(
    answered: Result<A, Refusal>,
    line: &mut [u8],
) -> Result<usize, Refusal>
    ensures { Lined (answer A.items answered) line.old line.new result }
{
    match answered {
        Ok(numbers) => Answer::Ok(numbers.as_slice()).write(line),
        Err(refusal) => Answer::No(refusal).write(line),
    }
}

// Lays a cell. The ground and the line are the caller's, handed over apart.
fn lay(ground: &mut Open, corners: [u16; 4], line: &mut [u8]) -> Result<usize, Refusal>
    ensures { Said (Lay (slice_index corners 0) (slice_index corners 1) (slice_index corners 2) (slice_index corners 3)) (plain ground.old) (plain ground.new) line.old line.new result }
{
    let [a, b, c, d] = corners;
    let laid = ground.lay(a, b, c, d).map(
        |t|
            ensures { result ≡ t ∷ [] }
        { [t] },
    );
    say(laid, line)
}

// Turns cells until all joined triangles read opposite ways, with labels and marks for as many cells as a ground can have.
fn orient(ground: &mut Open, line: &mut [u8]) -> Result<usize, Refusal>
    ensures { Said Orient (plain ground.old) (plain ground.new) line.old line.new result }
{
    // room for any ground, since the libraries allocate nothing
    let mut labels = [Turn::Straight; 1024];
    let mut marks = [0; 1024];
    let turned = ground.orient(&mut labels, &mut marks).map(
        |turned|
            requires { turned < 65536 }
            ensures { result ≡ turned ∷ [] }
        { [turned as u16] },
    );
    say(turned, line)
}

// Tells the cells at a vertex.
fn cells_at_vertex(ground: &Sealed, v: u16, line: &mut [u8]) -> Result<usize, Refusal>
    ensures { Said (CellsAtVertex v) (plain_sealed ground.now) (plain_sealed ground.now) line.old line.new result }
{
    // room for any ground, since the libraries allocate nothing
    let mut cells = [0; 1024];
    say(ground.star(v, &mut cells).map(|n| &cells[..n]), line)
}

// Tells the cells at an edge. One function for this and the last would take the question as a closure
// and its causes as well, and be no shorter.
fn cells_at_edge(ground: &Sealed, v: u16, w: u16, line: &mut [u8]) -> Result<usize, Refusal>
    ensures { Said (CellsAtEdge v w) (plain_sealed ground.now) (plain_sealed ground.now) line.old line.new result }
{
    // room for any ground, since the libraries allocate nothing
    let mut cells = [0; 1024];
    say(
        ground.edge_star(v, w, &mut cells).map(|n| &cells[..n]),
        line,
    )
}

// Tells the three counts.
fn counts(ground: &Sealed, line: &mut [u8]) -> Result<usize, Refusal>
    ensures { Said Counts (plain_sealed ground.now) (plain_sealed ground.now) line.old line.new result }
{
    let counts = ground.counts();
    say(Ok([counts.cells, counts.joined, counts.skin]), line)
}

/// Carries out an order on the ground, which it gives back, and writes the line of the answer;
/// says beside how many bytes it has, or that the line handed over is too short.
/// The line that closes a list asks for nothing and has no answer.
// A question is asked of the ground sealed for its time; a closure for the three would be no shorter.
pub fn obey<'a>(
    ground: Open<'a>,
    order: Order,
    line: &mut [u8],
) -> (Open<'a>, Result<usize, Refusal>)
    ensures { Said order (plain ground.entry) (plain result.0) line.old line.new result.1 }
{
    let mut ground = ground;
    match order {
        Order::Lay(a, b, c, d) => {
            let written = lay(&mut ground, [a, b, c, d], line);
            (ground, written)
        }
        Order::Lift(t) => {
            let written = say(ground.lift(t).map(|_| []), line);
            (ground, written)
        }
        Order::Turn(t) => {
            let written = say(ground.turn(t).map(|_| []), line);
            (ground, written)
        }
        Order::Orient => {
            let written = orient(&mut ground, line);
            (ground, written)
        }
        Order::CellsAtVertex(v) => {
            let sealed = ground.seal();
            let written = cells_at_vertex(&sealed, v, line);
            (sealed.reopen(), written)
        }
        Order::CellsAtEdge(v, w) => {
            let sealed = ground.seal();
            let written = cells_at_edge(&sealed, v, w, line);
            (sealed.reopen(), written)
        }
        Order::Counts => {
            let sealed = ground.seal();
            let written = counts(&sealed, line);
            (sealed.reopen(), written)
        }
        Order::Close(_) => (ground, Ok(0)),
    }
}
