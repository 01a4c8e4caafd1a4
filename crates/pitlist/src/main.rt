//! pitlist: reads a work list from standard input and prints a line of answer for each order.
#![tactic(auto)]

use anyhow::Context;
use ground::{Cell, make};
use refusal::Refusal;
use runlist::obey;
use std::io::{Read, Write};
use worklist::{Answer, Fault, check_list, next_to_run};

// One byte more than a work list may have, so that a longer one is seen to be too long.
const MOST_READ: u64 = 65537;

// The cell places that every list starts from.
const PLACES: usize = 1024;

// Room for the longest line: "ok" and the numbers of 1,024 cells, each after a space. `obey` fills a line that
// is handed over.
const LINE: usize = 8192;

// Room for a line that says what is wrong: "bad" and two numbers of five digits at most.
const FAULT_LINE: usize = 16;

// Prints the first bytes of the line, which `obey` is handed and fills.
fn print_line(
    rt: &HostRuntime,
    line: &[u8],
    written: Result<usize, Refusal>,
) -> anyhow::Result<()> {
    let said = written
        .ok()
        .and_then(|n| line.get(..n))
        .context("an answer does not fit its line")?;
    rt.stdout().write_all(said)?;
    Ok(())
}

// Prints what is wrong with a list that is turned down. Not by `Display`: no `fmt` promises to succeed, and
// `write` does where there is room.
fn print_fault(rt: &HostRuntime, fault: Fault) -> anyhow::Result<()> {
    let mut line = [0; FAULT_LINE];
    let written = Answer::Bad(fault).write(&mut line);
    print_line(rt, &line, written)
}

// Carries out the orders of a checked list, from a ground without cells.
fn run_orders(rt: &HostRuntime, text: &[u8]) -> anyhow::Result<()> {
    let mut places = vec![in rt.alloc(); Cell::free(); PLACES]?;
    let mut line = vec![in rt.alloc(); 0; LINE]?;
    let mut ground = make(&mut places);
    let mut rest = text;
    while let Some((order, more)) = next_to_run(rest) {
        let (after, written) = obey(ground, order, &mut line);
        ground = after;
        print_line(rt, &line, written)?;
        rest = more;
    }
    Ok(())
}

fn run(rt: &HostRuntime) -> anyhow::Result<()> {
    let mut text = Vec::new(rt.alloc());
    let mut input = rt.stdin().take(MOST_READ);
    input.read_to_end(&mut text)?;
    match check_list(&text) {
        Ok(_) => run_orders(rt, &text),
        Err(fault) => print_fault(rt, fault),
    }
}

fn main(rt: HostRuntime) -> anyhow::Result<()> {
    run(&rt)
}
