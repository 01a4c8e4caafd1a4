//! Lay, lift and turn: what is joined after them, what they refuse, and what a refusal leaves.
use crate::ground_calls::{
    are_opposites, changes_are, counts_are, lay_rows, lay_strip, lays, lifts, opposite_is, reads,
    turns,
};
use ground::{Cell, Open, Sealed, make};
use refusal::Refusal;
use std::process::Abort;

#[test]
fn two_cells_are_joined_and_read_opposite_ways(rt: HostRuntime) {
    let mut places = [Cell::free(); 2];
    let mut ground = make(&mut places);
    lay_strip(&rt, &mut ground, 2);
    let ground = ground.seal();
    are_opposites(&rt, &ground, 0, 7);
    reads(&rt, &ground, 0, Ok([1, 2, 3]));
    reads(&rt, &ground, 7, Ok([1, 3, 2]));
}

#[test]
fn a_turned_cell_is_joined_by_a_half_face_that_reads_alike(rt: HostRuntime) {
    let mut places = [Cell::free(); 2];
    let mut ground = make(&mut places);
    lay_strip(&rt, &mut ground, 2);
    turns(&rt, &mut ground, 1, Ok(()));
    let ground = ground.seal();
    are_opposites(&rt, &ground, 0, 6);
    opposite_is(&rt, &ground, 7, Ok(None));
    reads(&rt, &ground, 0, Ok([1, 2, 3]));
    reads(&rt, &ground, 6, Ok([3, 1, 2]));
}

#[test]
fn a_third_cell_is_joined_to_the_second(rt: HostRuntime) {
    let mut places = [Cell::free(); 3];
    let mut ground = make(&mut places);
    lay_strip(&rt, &mut ground, 3);
    let ground = ground.seal();
    are_opposites(&rt, &ground, 0, 7);
    are_opposites(&rt, &ground, 4, 11);
}

#[test]
fn joins_follow_the_cell_that_a_lift_moves(rt: HostRuntime) {
    let mut places = [Cell::free(); 3];
    let mut ground = make(&mut places);
    lay_strip(&rt, &mut ground, 3);
    lifts(&rt, &mut ground, 0, Ok(()));
    let ground = ground.seal();
    are_opposites(&rt, &ground, 4, 3);
    opposite_is(&rt, &ground, 7, Ok(None));
    reads(&rt, &ground, 0, Ok([3, 4, 5]));
    reads(&rt, &ground, 8, Err(Refusal::NoSuchNumber));
}

#[test]
fn the_place_of_a_lifted_cell_serves_the_next_lay(rt: HostRuntime) {
    let mut places = [Cell::free(); 2];
    let mut ground = make(&mut places);
    lay_strip(&rt, &mut ground, 2);
    lifts(&rt, &mut ground, 1, Ok(()));
    lays(&rt, &mut ground, [4, 3, 2, 1], Ok(1));
    let ground = ground.seal();
    are_opposites(&rt, &ground, 0, 4);
    reads(&rt, &ground, 4, Ok([3, 2, 1]));
}

#[test]
fn lay_refuses_a_cell_that_is_there_and_vertices_that_are_not_lawful(rt: HostRuntime) {
    let mut places = [Cell::free(); 3];
    let mut ground = make(&mut places);
    lay_strip(&rt, &mut ground, 1);
    lays(&rt, &mut ground, [1, 0, 2, 3], Err(Refusal::CellPresent));
    lays(&rt, &mut ground, [0, 1, 2, 2], Err(Refusal::VerticesEqual));
    lays(
        &rt,
        &mut ground,
        [0, 1, 2, 4096],
        Err(Refusal::VertexTooHigh),
    );
    lays(&rt, &mut ground, [0, 1, 2, 4095], Ok(1));
}

#[test]
fn lift_and_turn_refuse_a_number_of_no_cell(rt: HostRuntime) {
    let mut places = [Cell::free(); 3];
    let mut ground = make(&mut places);
    lay_strip(&rt, &mut ground, 2);
    lifts(&rt, &mut ground, 2, Err(Refusal::NoSuchNumber));
    turns(&rt, &mut ground, 2, Err(Refusal::NoSuchNumber));
    turns(&rt, &mut ground, 65535, Err(Refusal::NoSuchNumber));
    lifts(&rt, &mut ground, 1, Ok(()));
    turns(&rt, &mut ground, 1, Err(Refusal::NoSuchNumber));
}

// Two cells on the triangle 1 2 3.
fn lay_on_a_triangle(rt: &impl Abort, ground: &mut Open) {
    lay_rows(rt, ground, &[[0, 1, 2, 3], [4, 1, 2, 3]]);
}

#[test]
fn the_first_cause_is_told(rt: HostRuntime) {
    let mut places = [Cell::free(); 3];
    let mut ground = make(&mut places);
    lay_on_a_triangle(&rt, &mut ground);
    // too high and repeated
    lays(
        &rt,
        &mut ground,
        [4096, 1, 1, 2],
        Err(Refusal::VertexTooHigh),
    );
    // there, and with a triangle that is in two cells
    lays(&rt, &mut ground, [3, 2, 1, 0], Err(Refusal::CellPresent));
    lays(&rt, &mut ground, [5, 1, 2, 3], Err(Refusal::TriangleTaken));
}

#[test]
fn the_first_cause_is_told_of_a_full_ground(rt: HostRuntime) {
    let mut places = [Cell::free(); 2];
    let mut ground = make(&mut places);
    lay_on_a_triangle(&rt, &mut ground);
    lays(
        &rt,
        &mut ground,
        [0, 1, 2, 4096],
        Err(Refusal::VertexTooHigh),
    );
    lays(&rt, &mut ground, [0, 1, 2, 2], Err(Refusal::VerticesEqual));
    // there
    lays(&rt, &mut ground, [0, 1, 2, 3], Err(Refusal::NoFreePlace));
    // with a triangle that is in two cells
    lays(&rt, &mut ground, [5, 1, 2, 3], Err(Refusal::NoFreePlace));
}

// The eight half-faces read so, and there are no others.
fn all_read(rt: &impl Abort, ground: &Sealed, readings: [[u16; 3]; 8]) {
    for (h, reading) in (0..8).zip(readings) {
        reads(rt, ground, h, Ok(reading));
    }
    reads(rt, ground, 8, Err(Refusal::NoSuchNumber));
}

// All that a question tells of the ground that `lay_on_a_triangle` leaves.
fn is_on_a_triangle(rt: &impl Abort, ground: &Sealed) {
    all_read(
        rt,
        ground,
        [
            [1, 2, 3],
            [2, 0, 3],
            [3, 0, 1],
            [0, 2, 1],
            [1, 2, 3],
            [2, 4, 3],
            [3, 4, 1],
            [4, 2, 1],
        ],
    );
    are_opposites(rt, ground, 0, 4);
    for i in 1..4 {
        opposite_is(rt, ground, i, Ok(None));
        opposite_is(rt, ground, 4 + i, Ok(None));
    }
    counts_are(rt, ground, [2, 1, 6]);
    changes_are(rt, ground, 2);
}

#[test]
fn a_refused_change_leaves_all_as_it_was(rt: HostRuntime) {
    let mut places = [Cell::free(); 3];
    let mut ground = make(&mut places);
    lay_on_a_triangle(&rt, &mut ground);
    let sealed = ground.seal();
    is_on_a_triangle(&rt, &sealed);
    let mut ground = sealed.reopen();
    lays(&rt, &mut ground, [5, 1, 2, 3], Err(Refusal::TriangleTaken));
    lays(&rt, &mut ground, [3, 2, 1, 0], Err(Refusal::CellPresent));
    lifts(&rt, &mut ground, 2, Err(Refusal::NoSuchNumber));
    turns(&rt, &mut ground, 2, Err(Refusal::NoSuchNumber));
    is_on_a_triangle(&rt, &ground.seal());
}
