//! Orient and the turn net: how many cells are turned, what is refused, and what is left.
use crate::ground_calls::{are_opposites, lay_rows, lay_strip, reads};
use carry::{Label, Net, Turn, carry};
use ground::{Cell, Open, make};
use refusal::Refusal;
use std::process::Abort;

// Seven cells in a ring that closes with a twist.
fn lay_ring(rt: &impl Abort, ground: &mut Open) {
    lay_rows(
        rt,
        ground,
        &[
            [0, 1, 2, 3],
            [1, 2, 3, 4],
            [2, 3, 4, 5],
            [3, 4, 5, 6],
            [4, 5, 6, 1],
            [5, 6, 1, 0],
            [6, 1, 0, 2],
        ],
    );
}

#[test]
fn two_cells_that_read_opposite_ways_are_left(rt: HostRuntime) {
    let mut places = [Cell::free(); 2];
    let mut labels = [Turn::Turned; 2];
    let mut marks = [9; 2];
    let mut ground = make(&mut places);
    lay_strip(&rt, &mut ground, 2);
    assert_eq!(rt; ground.orient(&mut labels, &mut marks), Ok(0));
    assert_eq!(rt; labels, [Turn::Straight, Turn::Straight]);
    assert_eq!(rt; marks, [0, 0]);
    let ground = ground.seal();
    assert_eq!(rt; ground.changes(), 3);
    are_opposites(&rt, &ground, 0, 7);
    reads(&rt, &ground, 0, Ok([1, 2, 3]));
    reads(&rt, &ground, 7, Ok([1, 3, 2]));
}

#[test]
fn a_turned_cell_is_turned_back(rt: HostRuntime) {
    let mut places = [Cell::free(); 2];
    let mut labels = [Turn::Straight; 3];
    let mut marks = [9; 3];
    let mut ground = make(&mut places);
    lay_rows(&rt, &mut ground, &[[0, 1, 2, 3], [4, 1, 2, 3]]);
    assert_eq!(rt; ground.orient(&mut labels, &mut marks), Ok(1));
    assert_eq!(rt; labels, [Turn::Straight, Turn::Turned, Turn::Straight]);
    assert_eq!(rt; marks, [0, 0, 9]);
    let ground = ground.seal();
    are_opposites(&rt, &ground, 0, 4);
    reads(&rt, &ground, 0, Ok([1, 2, 3]));
    reads(&rt, &ground, 4, Ok([1, 3, 2]));
}

#[test]
fn no_choice_of_turned_cells_works_in_the_ring(rt: HostRuntime) {
    let mut places = [Cell::free(); 7];
    let mut labels = [Turn::Turned; 8];
    let mut marks = [9; 8];
    let mut ground = make(&mut places);
    lay_ring(&rt, &mut ground);
    assert_eq!(rt;
        ground.orient(&mut labels, &mut marks),
        Err(Refusal::NoLabelsAgree)
    );
    assert_eq!(rt; labels[0..7].contains(&Turn::Turned), false);
    assert_eq!(rt; labels[7], Turn::Turned);
    assert_eq!(rt; marks, [0, 0, 0, 0, 0, 0, 0, 9]);
    let ground = ground.seal();
    assert_eq!(rt; ground.changes(), 7);
    are_opposites(&rt, &ground, 0, 7);
    reads(&rt, &ground, 27, Ok([6, 0, 1]));
}

#[test]
fn the_ring_without_its_last_cell_is_left(rt: HostRuntime) {
    let mut places = [Cell::free(); 7];
    let mut labels = [Turn::Turned; 6];
    let mut marks = [9; 6];
    let mut ground = make(&mut places);
    lay_ring(&rt, &mut ground);
    assert_eq!(rt; ground.lift(6), Ok(()));
    assert_eq!(rt; ground.orient(&mut labels, &mut marks), Ok(0));
    assert_eq!(rt; labels, [Turn::Straight; 6]);
}

#[test]
fn an_empty_ground_is_oriented(rt: HostRuntime) {
    let mut places = [Cell::free(); 0];
    let mut labels = [Turn::Turned; 1];
    let mut marks = [9; 0];
    let mut ground = make(&mut places);
    assert_eq!(rt; ground.orient(&mut labels, &mut marks), Ok(0));
    assert_eq!(rt; labels, [Turn::Turned]);
    assert_eq!(rt; ground.seal().changes(), 1);
}

#[test]
fn a_list_one_short_is_refused_and_left(rt: HostRuntime) {
    let mut places = [Cell::free(); 2];
    let mut labels = [Turn::Turned; 2];
    let mut marks = [9; 2];
    let mut few_labels = [Turn::Turned; 1];
    let mut few_marks = [9; 1];
    let mut ground = make(&mut places);
    lay_strip(&rt, &mut ground, 2);
    assert_eq!(rt;
        ground.orient(&mut few_labels, &mut marks),
        Err(Refusal::ListTooShort)
    );
    assert_eq!(rt;
        ground.orient(&mut labels, &mut few_marks),
        Err(Refusal::ListTooShort)
    );
    assert_eq!(rt; labels, [Turn::Turned, Turn::Turned]);
    assert_eq!(rt; few_labels, [Turn::Turned]);
    assert_eq!(rt; marks, [9, 9]);
    assert_eq!(rt; few_marks, [9]);
    assert_eq!(rt; ground.seal().changes(), 2);
}

#[test]
fn turns_are_carried_over_the_net_of_a_sealed_ground(rt: HostRuntime) {
    let mut places = [Cell::free(); 3];
    let mut labels = [Turn::Turned; 3];
    let mut marks = [9; 3];
    let mut ground = make(&mut places);
    lay_rows(
        &rt,
        &mut ground,
        &[[0, 1, 2, 3], [4, 1, 2, 3], [5, 6, 7, 8]],
    );
    let ground = ground.seal();
    let net = ground.turn_net();
    assert_eq!(rt; carry(&net, &mut labels, &mut marks), Ok(2));
    assert_eq!(rt; labels, [Turn::Straight, Turn::Turned, Turn::Straight]);
    assert_eq!(rt; marks, [0, 0, 0]);
}
