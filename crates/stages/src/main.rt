//! The two stages of a ground: changed while it is open, asked while it is sealed.
#![tactic(auto)]

use ground::{Cell, Sealed, make};

fn show(rt: &impl Print, ground: &Sealed) -> anyhow::Result<()> {
    let counts = ground.counts();
    println!(rt;
        "{} cells, {} joined, {} skin",
        counts.cells, counts.joined, counts.skin
    )?;
    Ok(())
}

fn main(rt: HostRuntime) -> anyhow::Result<()> {
    let mut places = [Cell::free(); 2];
    let mut open = make(&mut places);
    // what they answer is not asked: the counts show what came of them
    let _ = open.lay(0, 1, 2, 3);
    let _ = open.lay(1, 2, 3, 4);
    let sealed = open.seal();
    show(&rt, &sealed)?;
    let mut reopened = sealed.reopen();
    let _ = reopened.lift(0);
    show(&rt, &reopened.seal())
}
