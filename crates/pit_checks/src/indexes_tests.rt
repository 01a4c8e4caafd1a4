//! The face index and the edge index of small grounds.
use ground::{Cell, Open, make};
use index::{Entry, Pair, Triple};
use indexes::{Side, edge_index, face_index, stands};
use refusal::Refusal;
use std::process::Abort;

fn triple(first: u16, second: u16, third: u16) -> Triple {
    Triple {
        first,
        second,
        third,
    }
}

fn face(first: u16, second: u16, third: u16, half_face: u16) -> Entry<Triple> {
    Entry {
        key: triple(first, second, third),
        half_face,
    }
}

fn pair(first: u16, second: u16) -> Pair {
    Pair { first, second }
}

fn edge(first: u16, second: u16, half_face: u16) -> Entry<Pair> {
    Entry {
        key: pair(first, second),
        half_face,
    }
}

fn lay_all(rt: &impl Abort, ground: &mut Open, rows: &[[u16; 4]]) {
    for row in rows {
        let [a, b, c, d] = *row;
        assert!(rt; ground.lay(a, b, c, d).is_ok());
    }
}

#[test]
fn a_ground_without_cells_has_no_entries(rt: HostRuntime) {
    let mut cells = [Cell::free(); 1];
    let ground = make(&mut cells).seal();
    let mut places = [face(9, 9, 9, 9); 0];
    let (index, answer) = face_index(&ground, &mut places);
    assert_eq!(rt; index.len(), 0);
    assert_eq!(rt; answer, Ok(0));
    let mut places = [edge(9, 9, 9); 2];
    let (index, answer) = edge_index(&ground, &mut places);
    assert_eq!(rt; index.len(), 0);
    assert_eq!(rt; answer, Ok(0));
    assert_eq!(rt; places, [edge(9, 9, 9); 2]);
}

#[test]
fn one_cell_has_four_triangles(rt: HostRuntime) {
    let mut cells = [Cell::free(); 1];
    let mut ground = make(&mut cells);
    lay_all(&rt, &mut ground, &[[0, 1, 2, 3]]);
    let ground = ground.seal();
    let mut places = [face(9, 9, 9, 9); 5];
    let (index, answer) = face_index(&ground, &mut places);
    assert_eq!(rt; answer, Ok(4));
    assert_eq!(rt; index.find(triple(0, 2, 3)), Some(1));
    assert_eq!(rt; index.find(triple(0, 3, 2)), None);
    assert_eq!(rt;
        places,
        [
            face(0, 1, 2, 3),
            face(0, 1, 3, 2),
            face(0, 2, 3, 1),
            face(1, 2, 3, 0),
            face(9, 9, 9, 9),
        ]
    );
}

#[test]
fn one_cell_has_six_edges(rt: HostRuntime) {
    let mut cells = [Cell::free(); 1];
    let mut ground = make(&mut cells);
    lay_all(&rt, &mut ground, &[[3, 1, 0, 2]]);
    let ground = ground.seal();
    let mut places = [edge(9, 9, 9); 7];
    let (index, answer) = edge_index(&ground, &mut places);
    assert_eq!(rt; answer, Ok(6));
    assert_eq!(rt; index.find(pair(0, 2)), Some(0));
    assert_eq!(rt; index.find(pair(2, 0)), None);
    assert_eq!(rt;
        places,
        [
            edge(0, 1, 0),
            edge(0, 2, 0),
            edge(0, 3, 1),
            edge(1, 2, 0),
            edge(1, 3, 2),
            edge(2, 3, 1),
            edge(9, 9, 9),
        ]
    );
}

#[test]
fn a_joined_triangle_has_its_lower_half_face(rt: HostRuntime) {
    let mut cells = [Cell::free(); 2];
    let mut ground = make(&mut cells);
    lay_all(&rt, &mut ground, &[[0, 1, 2, 3], [1, 2, 3, 4]]);
    let ground = ground.seal();
    let mut places = [face(9, 9, 9, 9); 7];
    let (index, answer) = face_index(&ground, &mut places);
    assert_eq!(rt; answer, Ok(7));
    assert_eq!(rt;
        index.entries(),
        [
            face(0, 1, 2, 3),
            face(0, 1, 3, 2),
            face(0, 2, 3, 1),
            face(1, 2, 3, 0),
            face(1, 2, 4, 6),
            face(1, 3, 4, 5),
            face(2, 3, 4, 4),
        ]
        .as_slice()
    );
}

// Half-faces 0 and 7 are joined, so the edges of their triangle go by a higher one that is open.
#[test]
fn an_edge_has_an_open_half_face_before_a_lower_joined_one(rt: HostRuntime) {
    let mut cells = [Cell::free(); 2];
    let mut ground = make(&mut cells);
    lay_all(&rt, &mut ground, &[[0, 1, 2, 3], [1, 2, 3, 4]]);
    let ground = ground.seal();
    let mut places = [edge(9, 9, 9); 9];
    let (index, answer) = edge_index(&ground, &mut places);
    assert_eq!(rt; answer, Ok(9));
    assert_eq!(rt;
        index.entries(),
        [
            edge(0, 1, 2),
            edge(0, 2, 1),
            edge(0, 3, 1),
            edge(1, 2, 3),
            edge(1, 3, 2),
            edge(1, 4, 5),
            edge(2, 3, 1),
            edge(2, 4, 4),
            edge(3, 4, 4),
        ]
        .as_slice()
    );
}

#[test]
fn two_cells_that_share_an_edge_share_no_triangle(rt: HostRuntime) {
    let mut cells = [Cell::free(); 2];
    let mut ground = make(&mut cells);
    lay_all(&rt, &mut ground, &[[0, 1, 4, 5], [0, 1, 2, 3]]);
    let ground = ground.seal();
    let mut faces = [face(9, 9, 9, 9); 8];
    let (index, answer) = face_index(&ground, &mut faces);
    assert_eq!(rt; answer, Ok(8));
    assert_eq!(rt; index.find(triple(0, 1, 2)), Some(7));
    assert_eq!(rt; index.find(triple(0, 1, 4)), Some(3));
    let mut edges = [edge(9, 9, 9); 11];
    let (index, answer) = edge_index(&ground, &mut edges);
    assert_eq!(rt; answer, Ok(11));
    assert_eq!(rt; index.find(pair(0, 1)), Some(2));
    assert_eq!(rt; index.find(pair(2, 3)), Some(4));
}

// Three cells round the edge 0 1: all half-faces on it are joined.
#[test]
fn an_inner_edge_has_its_lowest_half_face(rt: HostRuntime) {
    let mut cells = [Cell::free(); 3];
    let mut ground = make(&mut cells);
    lay_all(
        &rt,
        &mut ground,
        &[[0, 1, 2, 3], [0, 1, 3, 4], [0, 1, 4, 2]],
    );
    let ground = ground.seal();
    let mut places = [edge(9, 9, 9); 10];
    let (index, answer) = edge_index(&ground, &mut places);
    assert_eq!(rt; answer, Ok(10));
    assert_eq!(rt; index.find(pair(0, 1)), Some(2));
    assert_eq!(rt; index.find(pair(1, 2)), Some(0));
    assert_eq!(rt; index.find(pair(0, 4)), Some(5));
}

#[test]
fn a_list_that_is_one_place_short_is_refused_and_kept(rt: HostRuntime) {
    let mut cells = [Cell::free(); 1];
    let mut ground = make(&mut cells);
    lay_all(&rt, &mut ground, &[[0, 1, 2, 3]]);
    let ground = ground.seal();
    let mut faces = [face(9, 9, 9, 9); 3];
    let (index, answer) = face_index(&ground, &mut faces);
    assert_eq!(rt; index.len(), 0);
    assert_eq!(rt; answer, Err(Refusal::ListTooShort));
    assert_eq!(rt; faces, [face(9, 9, 9, 9); 3]);
    let mut edges = [edge(9, 9, 9); 5];
    let (index, answer) = edge_index(&ground, &mut edges);
    assert_eq!(rt; index.len(), 0);
    assert_eq!(rt; answer, Err(Refusal::ListTooShort));
    assert_eq!(rt; edges, [edge(9, 9, 9); 5]);
}

// The cells 0 1 2 3, 1 2 3 4 and so on: a strip of 1,024.
#[test]
fn the_largest_ground_has_its_indexes(rt: HostRuntime) {
    let mut cells = [Cell::free(); 1024];
    let mut ground = make(&mut cells);
    for t in 0..1024 {
        assert!(rt; ground.lay(t, t + 1, t + 2, t + 3).is_ok());
    }
    let ground = ground.seal();
    let mut faces = [face(9, 9, 9, 9); 3073];
    let (index, answer) = face_index(&ground, &mut faces);
    assert_eq!(rt; answer, Ok(3073));
    assert_eq!(rt; index.find(triple(1023, 1024, 1026)), Some(4094));
    let mut edges = [edge(9, 9, 9); 3075];
    let (index, answer) = edge_index(&ground, &mut edges);
    assert_eq!(rt; answer, Ok(3075));
    assert_eq!(rt; index.find(pair(1025, 1026)), Some(4092));
}

#[test]
fn an_open_half_face_stands_and_else_the_lower(rt: HostRuntime) {
    let open = Side {
        half_face: 5,
        is_open: true,
    };
    let joined = Side {
        half_face: 2,
        is_open: false,
    };
    assert_eq!(rt; stands(joined, open), open);
    assert_eq!(rt; stands(open, joined), open);
    let higher = Side {
        half_face: 9,
        ..open
    };
    assert_eq!(rt; stands(higher, open), open);
    assert_eq!(rt; stands(open, higher), open);
    let higher = Side {
        half_face: 9,
        ..joined
    };
    assert_eq!(rt; stands(higher, joined), joined);
    assert_eq!(rt; stands(joined, higher), joined);
}
