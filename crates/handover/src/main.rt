//! handover: a station's model from the first cell to the second tank, as a journal of calls that is
//! replayed and printed line by line.
#![tactic(auto)]

mod pit;
mod show;

use carry::{Corner, Label, Turn};
use ground::{Cell, Sealed, make};
use journal::{Desk, Exchange, replay};
use nets::corner_net;
use pit::station;
use show::Line;

// The solver's own net, which the fuel company carries labels over: the corners of a ring of four cells.
fn lay_ring(places: &mut [Cell]) -> Sealed<'_> {
    let mut ring = make(places);
    for [a, b, c, d] in [[0, 1, 2, 3], [0, 1, 3, 4], [0, 1, 4, 5], [0, 1, 5, 2]] {
        // no refusal is awaited: the four cells are of this program
        let _ = ring.lay(a, b, c, d);
    }
    ring.seal()
}

fn run(rt: &impl Print) -> anyhow::Result<()> {
    let mut own = [Cell::free(); 4];
    let ring = lay_ring(&mut own);
    let net = corner_net(&ring);
    let mut places = [Cell::free(); 7];
    // as long as the calls of the journal ask
    let mut turns = [Turn::Straight; 32];
    let mut corners = [<Corner as Label>::neutral(); 8];
    let mut labels = [<Corner as Label>::neutral(); 4];
    let mut numbers = [0; 32];
    let mut marks = [0; 32];
    let mut journal = station();
    {
        let mut desk = Desk {
            turns: &mut turns,
            corners: &mut corners,
            labels: &mut labels,
            numbers: &mut numbers,
            marks: &mut marks,
        };
        let _ = replay(&mut places, &mut journal, &net, &mut desk);
    }
    for exchange in journal {
        let line = Line {
            exchange,
            numbers: &numbers,
        };
        println!(rt; "{line}")?;
    }
    Ok(())
}

fn main(rt: HostRuntime) -> anyhow::Result<()> {
    run(&rt)
}
