//! Grounds of many sizes, counts, changes, stars and the skin.
use crate::ground_calls::{
    changes_are, counts_are, edge_star_is, lay_strip, lays, lifts, opposite_is, reads, skin_is,
    star_is, turns,
};
use ground::{Cell, Open, make};
use refusal::Refusal;
use std::process::Abort;

// A list of at least 1,024 places takes 1,024 cells and no more.
fn takes_1024(rt: &impl Abort, places: &mut [Cell]) {
    let mut ground = make(places);
    lay_strip(rt, &mut ground, 1024);
    lays(
        rt,
        &mut ground,
        [1024, 1025, 1026, 1027],
        Err(Refusal::NoFreePlace),
    );
    let ground = ground.seal();
    counts_are(rt, &ground, [1024, 1023, 2050]);
    opposite_is(rt, &ground, 4095, Ok(Some(4088)));
    opposite_is(rt, &ground, 4096, Err(Refusal::NoSuchNumber));
    reads(rt, &ground, 4095, Ok([1023, 1025, 1024]));
    reads(rt, &ground, 4096, Err(Refusal::NoSuchNumber));
}

#[test]
fn of_1024_places_the_last_is_filled(rt: HostRuntime) {
    takes_1024(&rt, &mut [Cell::free(); 1024]);
}

#[test]
fn of_2000_places_1024_are_taken(rt: HostRuntime) {
    takes_1024(&rt, &mut [Cell::free(); 2000]);
}

#[test]
fn one_place_takes_one_cell(rt: HostRuntime) {
    let mut places = [Cell::free(); 1];
    let mut ground = make(&mut places);
    lay_strip(&rt, &mut ground, 1);
    lays(&rt, &mut ground, [1, 2, 3, 4], Err(Refusal::NoFreePlace));
    let ground = ground.seal();
    counts_are(&rt, &ground, [1, 0, 4]);
    opposite_is(&rt, &ground, 3, Ok(None));
    opposite_is(&rt, &ground, 4, Err(Refusal::NoSuchNumber));
}

#[test]
fn no_place_takes_no_cell(rt: HostRuntime) {
    let mut places = [Cell::free(); 0];
    let mut ground = make(&mut places);
    lays(&rt, &mut ground, [0, 1, 2, 3], Err(Refusal::NoFreePlace));
    lifts(&rt, &mut ground, 0, Err(Refusal::NoSuchNumber));
    turns(&rt, &mut ground, 0, Err(Refusal::NoSuchNumber));
    let ground = ground.seal();
    counts_are(&rt, &ground, [0, 0, 0]);
    changes_are(&rt, &ground, 0);
    opposite_is(&rt, &ground, 0, Err(Refusal::NoSuchNumber));
    reads(&rt, &ground, 0, Err(Refusal::NoSuchNumber));
}

#[test]
fn a_ground_without_cells_lists_none(rt: HostRuntime) {
    let mut places = [Cell::free(); 2];
    let ground = make(&mut places).seal();
    counts_are(&rt, &ground, [0, 0, 0]);
    star_is(&rt, &ground, 0, 8, Ok(0), [9; 8]);
    edge_star_is(&rt, &ground, [0, 1], 8, Ok(0), [9; 8]);
    skin_is(&rt, &ground, 8, Ok(0), [9; 8]);
}

#[test]
fn a_star_rises_and_leaves_the_places_after_it(rt: HostRuntime) {
    let mut places = [Cell::free(); 4];
    let mut ground = make(&mut places);
    lay_strip(&rt, &mut ground, 4);
    let ground = ground.seal();
    star_is(&rt, &ground, 3, 8, Ok(4), [0, 1, 2, 3, 9, 9, 9, 9]);
    star_is(&rt, &ground, 5, 8, Ok(2), [2, 3, 9, 9, 9, 9, 9, 9]);
    star_is(&rt, &ground, 4095, 8, Ok(0), [9; 8]);
}

#[test]
fn a_star_needs_room_for_its_cells_and_no_more(rt: HostRuntime) {
    let mut places = [Cell::free(); 3];
    let mut ground = make(&mut places);
    lay_strip(&rt, &mut ground, 3);
    let ground = ground.seal();
    star_is(&rt, &ground, 3, 2, Err(Refusal::ListTooShort), [9; 8]);
    star_is(&rt, &ground, 3, 3, Ok(3), [0, 1, 2, 9, 9, 9, 9, 9]);
    star_is(&rt, &ground, 6, 0, Ok(0), [9; 8]);
    star_is(&rt, &ground, 4096, 0, Err(Refusal::VertexTooHigh), [9; 8]);
}

#[test]
fn an_edge_star_rises_whichever_vertex_is_named_first(rt: HostRuntime) {
    let mut places = [Cell::free(); 3];
    let mut ground = make(&mut places);
    lay_strip(&rt, &mut ground, 3);
    let ground = ground.seal();
    edge_star_is(&rt, &ground, [2, 3], 8, Ok(3), [0, 1, 2, 9, 9, 9, 9, 9]);
    edge_star_is(&rt, &ground, [2, 1], 8, Ok(2), [0, 1, 9, 9, 9, 9, 9, 9]);
    edge_star_is(&rt, &ground, [0, 5], 8, Ok(0), [9; 8]);
}

#[test]
fn an_edge_star_needs_room_for_its_cells_and_no_more(rt: HostRuntime) {
    let mut places = [Cell::free(); 2];
    let mut ground = make(&mut places);
    lay_strip(&rt, &mut ground, 2);
    let ground = ground.seal();
    edge_star_is(&rt, &ground, [1, 2], 1, Err(Refusal::ListTooShort), [9; 8]);
    edge_star_is(&rt, &ground, [1, 2], 2, Ok(2), [0, 1, 9, 9, 9, 9, 9, 9]);
    edge_star_is(&rt, &ground, [5, 6], 0, Ok(0), [9; 8]);
}

#[test]
fn an_edge_star_tells_the_first_cause(rt: HostRuntime) {
    let mut places = [Cell::free(); 1];
    let mut ground = make(&mut places);
    lay_strip(&rt, &mut ground, 1);
    let ground = ground.seal();
    edge_star_is(
        &rt,
        &ground,
        [4096, 4096],
        0,
        Err(Refusal::VertexTooHigh),
        [9; 8],
    );
    edge_star_is(
        &rt,
        &ground,
        [1, 4096],
        0,
        Err(Refusal::VertexTooHigh),
        [9; 8],
    );
    edge_star_is(
        &rt,
        &ground,
        [4096, 1],
        0,
        Err(Refusal::VertexTooHigh),
        [9; 8],
    );
    edge_star_is(&rt, &ground, [1, 1], 0, Err(Refusal::VerticesEqual), [9; 8]);
}

#[test]
fn the_skin_needs_room_for_itself_and_no_more(rt: HostRuntime) {
    let mut places = [Cell::free(); 2];
    let mut ground = make(&mut places);
    lay_strip(&rt, &mut ground, 2);
    let ground = ground.seal();
    counts_are(&rt, &ground, [2, 1, 6]);
    skin_is(&rt, &ground, 5, Err(Refusal::ListTooShort), [9; 8]);
    skin_is(&rt, &ground, 6, Ok(6), [1, 2, 3, 4, 5, 6, 9, 9]);
    skin_is(&rt, &ground, 8, Ok(6), [1, 2, 3, 4, 5, 6, 9, 9]);
}

#[test]
fn accepted_changes_are_counted_and_refused_ones_are_not(rt: HostRuntime) {
    let mut places = [Cell::free(); 2];
    let mut ground = make(&mut places);
    lay_strip(&rt, &mut ground, 2);
    turns(&rt, &mut ground, 1, Ok(()));
    lifts(&rt, &mut ground, 0, Ok(()));
    let sealed = ground.seal();
    changes_are(&rt, &sealed, 4);
    let mut ground = sealed.reopen();
    lays(&rt, &mut ground, [0, 1, 2, 2], Err(Refusal::VerticesEqual));
    turns(&rt, &mut ground, 1, Err(Refusal::NoSuchNumber));
    lifts(&rt, &mut ground, 1, Err(Refusal::NoSuchNumber));
    changes_are(&rt, &ground.seal(), 4);
}

// Turns cell 0 so many times.
fn turn_often(rt: &impl Abort, ground: &mut Open, times: u32) {
    for _ in 0..times {
        turns(rt, ground, 0, Ok(()));
    }
}

#[test]
fn the_count_of_changes_stops_at_65535(rt: HostRuntime) {
    let mut places = [Cell::free(); 1];
    let mut ground = make(&mut places);
    lay_strip(&rt, &mut ground, 1);
    turn_often(&rt, &mut ground, 65533);
    let sealed = ground.seal();
    changes_are(&rt, &sealed, 65534);
    let mut ground = sealed.reopen();
    turn_often(&rt, &mut ground, 1);
    let sealed = ground.seal();
    changes_are(&rt, &sealed, 65535);
    let mut ground = sealed.reopen();
    turn_often(&rt, &mut ground, 2);
    changes_are(&rt, &ground.seal(), 65535);
}
