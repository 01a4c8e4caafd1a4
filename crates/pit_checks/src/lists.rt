//! Work lists, from their text to the lines of their answers.
use ground::{Cell, make};
use refusal::Refusal;
use runlist::obey;
use std::alloc::Global;
use std::process::Abort;
use std::test::Fail;
use worklist::{Answer, check_list, next_to_run};

// Appends the first bytes of the line.
fn take_line(out: &mut Vec<u8>, line: &[u8], written: Result<usize, Refusal>) -> Result<(), Fail> {
    match written {
        Ok(n) if n <= line.len() => {
            out.extend_from_slice(&line[..n])?;
            Ok(())
        }
        _ => Err(Fail::new("a line does not fit")),
    }
}

// The answers to the orders of a checked list, from a ground of so many places.
fn answers(heap: Global, text: &[u8], room: usize) -> Result<Vec<u8>, Fail> {
    let mut places = vec![in heap; Cell::free(); room]?;
    let mut line = vec![in heap; 0; 8192]?;
    let mut out = Vec::new(heap);
    let mut ground = make(&mut places);
    let mut rest = text;
    while let Some((order, more)) = next_to_run(rest) {
        let (after, written) = obey(ground, order, &mut line);
        ground = after;
        take_line(&mut out, &line, written)?;
        rest = more;
    }
    Ok(out)
}

// What the program prints for a text.
fn printed(heap: Global, text: &[u8], room: usize) -> Result<Vec<u8>, Fail> {
    match check_list(text) {
        Ok(_) => answers(heap, text, room),
        Err(fault) => {
            let mut line = vec![in heap; 0; 64]?;
            let mut out = Vec::new(heap);
            let written = Answer::Bad(fault).write(&mut line);
            take_line(&mut out, &line, written)?;
            Ok(out)
        }
    }
}

fn prints(rt: &impl Abort, heap: Global, text: &[u8], wanted: &[u8]) -> Result<(), Fail> {
    let out = printed(heap, text, 1024)?;
    assert!(rt; out.as_slice() == wanted);
    Ok(())
}

#[test]
fn a_refused_cell_leaves_nothing(rt: HostRuntime) -> Result<(), Fail> {
    prints(
        &rt,
        rt.alloc(),
        b"L 0 1 2 3\nL 4 1 2 3\nS\nL 5 1 2 3\nZ 4\n",
        b"ok 0\nok 1\nok 2 1 6\nno 13\n",
    )?;
    prints(
        &rt,
        rt.alloc(),
        b"L 0 1 2 3\nL 4 1 2 3\nL 5 1 2 3\nS\nE 1 2\nK 4\nX 1\nL 5 1 2 3\nS\nZ 9\n",
        b"ok 0\nok 1\nno 13\nok 2 1 6\nok 0 1\nok 1\nok\nok 1\nok 2 1 6\n",
    )?;
    prints(
        &rt,
        rt.alloc(),
        b"L 0 1 2 3\nL 4 1 2 3\nS\nO\nE 1 2\nL 5 1 2 3\nZ 6\n",
        b"ok 0\nok 1\nok 2 1 6\nok 1\nok 0 1\nno 13\n",
    )
}

#[test]
fn every_order_and_its_refusals(rt: HostRuntime) -> Result<(), Fail> {
    prints(
        &rt,
        rt.alloc(),
        b"S\nK 0\nE 0 1\nX 0\nT 0\nL 0 1 2 3\nL 1 0 2 3\nL 0 1 2 2\nL 0 1 2 4096\nL 0 1 2 4095\nZ 10\n",
        b"ok 0 0 0\nok\nok\nno 14\nno 14\nok 0\nno 12\nno 2\nno 1\nok 1\n",
    )?;
    prints(
        &rt,
        rt.alloc(),
        b"K 4096\nE 4096 4096\nE 3 3\nL 0 1 2 3\nT 0\nX 0\nS\nZ 7\n",
        b"no 1\nno 1\nno 2\nok 0\nok\nok\nok 0 0 0\n",
    )
}

#[test]
fn orient_turns_or_refuses(rt: HostRuntime) -> Result<(), Fail> {
    prints(
        &rt,
        rt.alloc(),
        b"O\nL 0 1 2 3\nL 1 2 3 4\nL 2 3 4 5\nL 3 4 5 6\nL 4 5 6 1\nL 5 6 1 0\nL 6 1 0 2\nO\nX 6\nO\nZ 11\n",
        b"ok 0\nok 0\nok 1\nok 2\nok 3\nok 4\nok 5\nok 6\nno 15\nok\nok 0\n",
    )?;
    prints(
        &rt,
        rt.alloc(),
        b"L 0 1 2 3\nL 0 1 3 4\nL 0 1 4 2\nO\nZ 4\n",
        b"ok 0\nok 1\nok 2\nok 0\n",
    )
}

#[test]
fn a_faulty_list_prints_one_line(rt: HostRuntime) -> Result<(), Fail> {
    prints(&rt, rt.alloc(), b"", b"bad 6 1\n")?;
    prints(&rt, rt.alloc(), b"S\nO 1\nZ 2\n", b"bad 5 2\n")?;
    prints(&rt, rt.alloc(), b"S\nZ 1\nS\n", b"bad 6 2\n")?;
    prints(&rt, rt.alloc(), b"S\nS\n", b"bad 6 3\n")?;
    prints(&rt, rt.alloc(), b"L 0 1 2 3\nL 0 1 2\nZ 2\n", b"bad 5 2\n")
}
