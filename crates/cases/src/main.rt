//! The worked examples of the rules: most are proved, and the rest are run here.
#![tactic(auto)]

mod table;

use carry::Turn;
use ground::{Cell, Open, make};
use refusal::Refusal;
use std::fmt;
use table::proved_cases;

// As many places as a ground takes.
const PLACES: usize = 1024;

// The answer of a call: its number, or the number of its refusal.
#[derive(Clone, Copy)]
struct Shown(Result<usize, Refusal>);

impl fmt::Display for Shown {
    fn fmt<W: fmt::Write>(&self, f: &mut fmt::Formatter<W>) -> fmt::Result {
        match self.0 {
            Ok(n) => write!(f, "{n}"),
            Err(refusal) => write!(f, "refusal {}", refusal.number()),
        }
    }
}

// A line that says what was run, what came, and whether that was due.
fn print_run(
    rt: &impl Print,
    run: &str,
    came: Result<usize, Refusal>,
    due: Result<usize, Refusal>,
) -> anyhow::Result<()> {
    if came == due {
        println!(rt; "{run}: {}, as expected", Shown(came))?;
    } else {
        println!(rt; "{run}: {}, NOT as expected: {}", Shown(came), Shown(due))?;
    }
    Ok(())
}

fn orient_nothing() -> Result<usize, Refusal> {
    let mut places = [Cell::free(); 1];
    let mut labels = [Turn::Straight; 1];
    let mut marks = [0; 1];
    make(&mut places).orient(&mut labels, &mut marks)
}

// Lays 1,024 cells with four vertices of their own each, all 4,096; what the last was answered.
fn lay_all(ground: &mut Open) -> Result<u16, Refusal> {
    (0..1024u16).try_fold(0, |_, t| ground.lay(4 * t, 4 * t + 1, 4 * t + 2, 4 * t + 3))
}

fn run(rt: &HostRuntime) -> anyhow::Result<()> {
    println!(rt; "{} worked examples proved", proved_cases())?;
    print_run(rt, "orient a ground without cells", orient_nothing(), Ok(0))?;
    let mut places = vec![in rt.alloc(); Cell::free(); PLACES]?;
    let mut ground = make(&mut places);
    print_run(
        rt,
        "lay 1024 cells in 1024 places",
        lay_all(&mut ground).map(usize::from),
        Ok(1023),
    )?;
    print_run(
        rt,
        "lay one more",
        ground.lay(0, 1, 2, 4).map(usize::from),
        Err(Refusal::NoFreePlace),
    )
}

fn main(rt: HostRuntime) -> anyhow::Result<()> {
    run(&rt)
}
