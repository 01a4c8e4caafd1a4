//! Soundness and the corner net on small pits.
use carry::{Corner, Label, Net, carry};
use ground::{Cell, Open, make};
use nets::{corner_net, edge_sound, vertex_sound};
use refusal::Refusal;
use std::test::Fail;

// Lays cells that have to be accepted.
fn lay_all(ground: &mut Open, rows: &[[u16; 4]]) -> Result<(), Fail> {
    for [a, b, c, d] in rows {
        if ground.lay(*a, *b, *c, *d).is_err() {
            return Err(Fail::new("a cell is refused"));
        }
    }
    Ok(())
}

#[test]
fn a_hinge_is_not_sound(rt: HostRuntime) -> Result<(), Fail> {
    let mut places = [Cell::free(); 8];
    let mut ground = make(&mut places);
    lay_all(&mut ground, &[[0, 1, 2, 3], [0, 1, 4, 5]])?;
    let sealed = ground.seal();
    assert!(rt; edge_sound(&sealed, 0, 1) == Ok(false));
    assert!(rt; edge_sound(&sealed, 0, 2) == Ok(true));
    assert!(rt; vertex_sound(&sealed, 0) == Ok(false));
    assert!(rt; vertex_sound(&sealed, 2) == Ok(true));
    Ok(())
}

#[test]
fn joined_cells_are_sound(rt: HostRuntime) -> Result<(), Fail> {
    let mut places = [Cell::free(); 8];
    let mut ground = make(&mut places);
    lay_all(&mut ground, &[[0, 1, 2, 3], [1, 2, 3, 4]])?;
    let sealed = ground.seal();
    assert!(rt; edge_sound(&sealed, 1, 2) == Ok(true));
    assert!(rt; vertex_sound(&sealed, 1) == Ok(true));
    Ok(())
}

#[test]
fn cells_that_share_a_vertex_alone_are_not_sound_there(rt: HostRuntime) -> Result<(), Fail> {
    let mut places = [Cell::free(); 8];
    let mut ground = make(&mut places);
    lay_all(&mut ground, &[[0, 1, 2, 3], [0, 4, 5, 6]])?;
    let sealed = ground.seal();
    assert!(rt; edge_sound(&sealed, 0, 1) == Ok(true));
    assert!(rt; edge_sound(&sealed, 0, 4) == Ok(true));
    assert!(rt; vertex_sound(&sealed, 0) == Ok(false));
    Ok(())
}

#[test]
fn soundness_is_refused(rt: HostRuntime) -> Result<(), Fail> {
    let mut places = [Cell::free(); 8];
    let mut ground = make(&mut places);
    lay_all(&mut ground, &[[0, 1, 2, 3], [0, 4, 5, 6]])?;
    let sealed = ground.seal();
    assert!(rt; edge_sound(&sealed, 4096, 4096) == Err(Refusal::VertexTooHigh));
    assert!(rt; edge_sound(&sealed, 0, 4096) == Err(Refusal::VertexTooHigh));
    assert!(rt; edge_sound(&sealed, 9, 9) == Err(Refusal::VerticesEqual));
    assert!(rt; edge_sound(&sealed, 1, 4) == Err(Refusal::InNoCell));
    assert!(rt; vertex_sound(&sealed, 4096) == Err(Refusal::VertexTooHigh));
    assert!(rt; vertex_sound(&sealed, 7) == Err(Refusal::InNoCell));
    Ok(())
}

#[test]
fn a_ring_of_four_has_corner_labels(rt: HostRuntime) -> Result<(), Fail> {
    let mut places = [Cell::free(); 8];
    let mut ground = make(&mut places);
    lay_all(
        &mut ground,
        &[[0, 1, 2, 3], [0, 1, 3, 4], [0, 1, 4, 5], [0, 1, 5, 2]],
    )?;
    let sealed = ground.seal();
    let mut labels = [<Corner as Label>::neutral(); 4];
    let mut marks = [0u8; 4];
    assert!(rt; carry(&corner_net(&sealed), &mut labels, &mut marks) == Ok(1));
    assert!(rt; labels.map(|label| label.as_number()) == [123, 132, 123, 132]);
    Ok(())
}

#[test]
fn a_ring_of_three_has_none(rt: HostRuntime) -> Result<(), Fail> {
    let mut places = [Cell::free(); 8];
    let mut ground = make(&mut places);
    lay_all(&mut ground, &[[0, 1, 2, 3], [0, 1, 3, 4], [0, 1, 4, 2]])?;
    let sealed = ground.seal();
    let mut labels = [<Corner as Label>::neutral(); 4];
    let mut marks = [0u8; 4];
    assert!(rt;
        carry(&corner_net(&sealed), &mut labels, &mut marks) == Err(Refusal::NoLabelsAgree)
    );
    Ok(())
}
