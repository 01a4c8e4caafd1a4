//! Carry on small nets, one for each way in which it could go wrong.
use crate::table::Table;
use carry::{Corner, Label, Net, Place, Turn, carry};
use refusal::Refusal;
use std::process::Abort;
use std::test::Fail;

const O: Turn = Turn::Straight;

const I: Turn = Turn::Turned;

fn at(item: usize, side: usize) -> Option<Place> {
    Some(Place { item, side })
}

/// Items 0, 1 and 2 in a ring: side 0 of each leads on, side 1 back.
fn ring<L>(steps: [L; 8]) -> Table<L> {
    Table {
        items: 3,
        names: [
            at(1, 1),
            at(2, 0),
            at(2, 1),
            at(0, 0),
            at(0, 1),
            at(1, 0),
            None,
            None,
        ],
        steps,
    }
}

/// The same without the join that closes the ring.
fn chain<L>(steps: [L; 8]) -> Table<L> {
    Table {
        items: 3,
        names: [
            at(1, 1),
            None,
            at(2, 1),
            at(0, 0),
            None,
            at(1, 0),
            None,
            None,
        ],
        steps,
    }
}

/// Some items, of which 0 and 1 are joined by their sides 0.
fn pair(rt: &impl Abort, items: usize, forth: Turn, back: Turn) -> Table<Turn> {
    assert!(rt; items <= 4);
    Table {
        items,
        names: [at(1, 0), None, at(0, 0), None, None, None, None, None],
        steps: [forth, I, back, I, I, I, I, I],
    }
}

/// One item, whose side 0 is joined to itself.
fn loop_of_one(step: Turn) -> Table<Turn> {
    Table {
        items: 1,
        names: [at(0, 0), None, None, None, None, None, None, None],
        steps: [step; 8],
    }
}

fn corner(a: u8, b: u8, c: u8, d: u8) -> Result<Corner, Fail> {
    match Corner::new(a, b, c, d) {
        Some(label) => Ok(label),
        None => Err(Fail::new("not four different digits")),
    }
}

#[test]
fn a_ring_that_closes(rt: HostRuntime) {
    let net = ring([I, O, I, I, O, I, I, I]);
    let mut labels = [I; 5];
    let mut marks = [7u8; 4];
    assert_eq!(rt; carry(&net, &mut labels, &mut marks), Ok(1));
    assert_eq!(rt; labels, [O, I, O, I, I]);
    assert_eq!(rt; marks, [0, 0, 0, 7]);
}

#[test]
fn a_ring_that_does_not_close(rt: HostRuntime) {
    let net = ring([I, O, O, I, O, O, O, O]);
    let mut labels = [I; 5];
    let mut marks = [7u8; 4];
    assert_eq!(rt;
        carry(&net, &mut labels, &mut marks),
        Err(Refusal::NoLabelsAgree)
    );
    assert_eq!(rt; labels, [O, O, O, I, I]);
    assert_eq!(rt; marks, [0, 0, 0, 7]);
}

#[test]
fn a_step_back_that_does_not_undo_the_step(rt: HostRuntime) {
    let net = pair(&rt, 2, I, O);
    let mut labels = [I; 2];
    let mut marks = [7u8; 2];
    assert_eq!(rt;
        carry(&net, &mut labels, &mut marks),
        Err(Refusal::NoLabelsAgree)
    );
    assert_eq!(rt; labels, [O, O]);
    assert_eq!(rt; marks, [0, 0]);
}

#[test]
fn a_side_joined_to_itself(rt: HostRuntime) {
    let mut labels = [I; 2];
    let mut marks = [7u8; 2];
    assert_eq!(rt; carry(&loop_of_one(O), &mut labels, &mut marks), Ok(1));
    assert_eq!(rt; labels, [O, I]);
    assert_eq!(rt; marks, [0, 7]);
    let refused = carry(&loop_of_one(I), &mut labels, &mut marks);
    assert_eq!(rt; refused, Err(Refusal::NoLabelsAgree));
    assert_eq!(rt; labels, [O, I]);
    assert_eq!(rt; marks, [0, 7]);
}

#[test]
fn two_pieces(rt: HostRuntime) {
    let net = Table {
        items: 4,
        names: [
            at(2, 0),
            None,
            None,
            at(3, 0),
            at(0, 0),
            None,
            at(1, 1),
            None,
        ],
        steps: [I; 8],
    };
    let mut labels = [I; 4];
    let mut marks = [7u8; 4];
    assert_eq!(rt; carry(&net, &mut labels, &mut marks), Ok(2));
    assert_eq!(rt; labels, [O, O, I, I]);
    assert_eq!(rt; marks, [0, 0, 0, 0]);
}

#[test]
fn an_item_with_no_joined_side(rt: HostRuntime) {
    let net = pair(&rt, 3, I, I);
    let mut labels = [I; 4];
    let mut marks = [7u8; 4];
    assert_eq!(rt; carry(&net, &mut labels, &mut marks), Ok(2));
    assert_eq!(rt; labels, [O, I, O, I]);
    assert_eq!(rt; marks, [0, 0, 0, 7]);
}

#[test]
fn no_items_at_all(rt: HostRuntime) {
    let net = pair(&rt, 0, I, I);
    let mut labels = [I; 2];
    let mut marks = [7u8; 2];
    assert_eq!(rt; carry(&net, &mut labels, &mut marks), Ok(0));
    assert_eq!(rt; labels, [I, I]);
    assert_eq!(rt; marks, [7, 7]);
    let mut no_labels: [Turn; 0] = [];
    let mut no_marks: [u8; 0] = [];
    assert_eq!(rt; carry(&net, &mut no_labels, &mut no_marks), Ok(0));
}

#[test]
fn lists_one_short(rt: HostRuntime) {
    let net = ring([O; 8]);
    let mut short_labels = [I; 2];
    let mut marks = [7u8; 3];
    let refused = carry(&net, &mut short_labels, &mut marks);
    assert_eq!(rt; refused, Err(Refusal::ListTooShort));
    assert_eq!(rt; short_labels, [I, I]);
    assert_eq!(rt; marks, [7, 7, 7]);
    let mut labels = [I; 3];
    let mut short_marks = [7u8; 2];
    let refused = carry(&net, &mut labels, &mut short_marks);
    assert_eq!(rt; refused, Err(Refusal::ListTooShort));
    assert_eq!(rt; labels, [I, I, I]);
    assert_eq!(rt; short_marks, [7, 7]);
    assert_eq!(rt; carry(&net, &mut labels, &mut marks), Ok(1));
}

#[test]
fn open_sides_and_sides_out_of_range(rt: HostRuntime) {
    let net = pair(&rt, 2, I, I);
    assert_eq!(rt; net.join(0, 0), at(1, 0));
    assert_eq!(rt; net.step(0, 0), I);
    assert_eq!(rt; net.join(0, 1), None);
    assert_eq!(rt; net.step(0, 1), O);
    assert_eq!(rt; net.join(2, 0), None);
    assert_eq!(rt; net.step(2, 0), O);
    assert_eq!(rt; net.join(0, 2), None);
    assert_eq!(rt; net.step(0, 2), O);
}

#[test]
fn corner_labels_in_the_order_of_the_walk(rt: HostRuntime) -> Result<(), Fail> {
    let n = <Corner as Label>::neutral();
    let p = corner(1, 0, 2, 3)?;
    let m = corner(0, 2, 1, 3)?;
    let net = chain([p, n, m, p, n, m, n, n]);
    let mut labels = [p; 4];
    let mut marks = [7u8; 4];
    assert_eq!(rt; carry(&net, &mut labels, &mut marks), Ok(1));
    assert_eq!(rt; labels, [n, p, corner(1, 2, 0, 3)?, p]);
    assert_eq!(rt; marks, [0, 0, 0, 7]);
    Ok(())
}

#[test]
fn corner_labels_round_a_ring(rt: HostRuntime) -> Result<(), Fail> {
    let n = <Corner as Label>::neutral();
    let p = corner(1, 0, 2, 3)?;
    let m = corner(0, 2, 1, 3)?;
    let both = p.combine(m);
    let mut labels = [m; 3];
    let mut marks = [7u8; 3];
    let closed = ring([p, both, m, p, both.invert(), m, n, n]);
    assert_eq!(rt; carry(&closed, &mut labels, &mut marks), Ok(1));
    assert_eq!(rt; labels, [n, p, both]);
    let refused = carry(&ring([p; 8]), &mut labels, &mut marks);
    assert_eq!(rt; refused, Err(Refusal::NoLabelsAgree));
    assert_eq!(rt; labels, [n, n, n]);
    assert_eq!(rt; marks, [0, 0, 0]);
    Ok(())
}

#[test]
fn corner_labels_alone(rt: HostRuntime) -> Result<(), Fail> {
    assert_eq!(rt; Corner::new(0, 1, 2, 2), None);
    assert_eq!(rt; Corner::new(0, 1, 2, 4), None);
    let p = corner(1, 2, 0, 3)?;
    assert_eq!(rt; p.digits(), [1, 2, 0, 3]);
    assert_eq!(rt; p.as_number(), 1203);
    assert_eq!(rt; p.invert().digits(), [2, 0, 1, 3]);
    assert_eq!(rt; p.combine(p.invert()), corner(0, 1, 2, 3)?);
    assert!(rt; p.same(p));
    assert!(rt; !p.same(p.invert()));
    Ok(())
}

#[test]
fn turns_alone(rt: HostRuntime) {
    assert_eq!(rt; <Turn as Label>::neutral(), O);
    assert_eq!(rt; I.combine(I), O);
    assert_eq!(rt; I.combine(O), I);
    assert_eq!(rt; O.combine(I), I);
    assert_eq!(rt; I.invert(), I);
    assert!(rt; I.same(I));
    assert!(rt; !I.same(O));
}
