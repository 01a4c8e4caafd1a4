//! Whether the cells at a vertex and at its edges hang together across their triangles.
ghost use Rattle.std.specs.Prelude.{◌≡◌, ℕ, ◌<◌, true, ◌↔◌, [], length, slice_index_or};
ghost use Rattle.rules.specs.Rows.{corner};
ghost use Rattle.rules.specs.Listings.{Listing};
ghost use Rattle.rules.specs.Questions.{AtVertex};
ghost use Rattle.rules.specs.Soundness.{Edge, EdgeSound, TellsVertexSound};
ghost use Rattle.ground.specs.Grounds.{plain_sealed};

use crate::edges::{edge_sound, linked};
use ground::Sealed;
use halves::HalfFace;
use refusal::Refusal;

// Whether the edge of v and w is sound, if it is one; else they are no `Edge`.
fn no_unsound_edge(ground: &Sealed, v: u16, w: u16) -> bool
    ensures { (result ≡ true) ↔ (Edge (plain_sealed ground.now).list v w → EdgeSound (plain_sealed ground.now).list v w) }
{
    // With its counts a ground tells that its vertices are in range: only what is no edge is
    // refused, and that counts as sound.
    let _ = ground.counts();
    edge_sound(ground, v, w).unwrap_or(true)
}

// Whether the edges from v to the other vertices of the cell t are sound.
fn cell_edges_sound(ground: &Sealed, v: u16, t: usize) -> bool
    requires { t < length (plain_sealed ground.now).list }
    ensures { (result ≡ true) ↔ ((i : ℕ) → i < 4 → Edge (plain_sealed ground.now).list v (corner (slice_index_or (plain_sealed ground.now).list t []) i) → EdgeSound (plain_sealed ground.now).list v (corner (slice_index_or (plain_sealed ground.now).list t []) i)) }
{
    let Some(half_face) = HalfFace::at(ground, t, 0) else {
        unreachable()
    };
    let row = half_face.corners();
    row.iter().all(|&w| no_unsound_edge(ground, v, w))
}

// Whether the edges at v are sound; `cells` are the cells that have v.
fn edges_sound(ground: &Sealed, v: u16, cells: &[u16]) -> bool
    requires { Listing (AtVertex (plain_sealed ground.now).list v) cells.now }
    ensures { (result ≡ true) ↔ ((w : ℕ) → Edge (plain_sealed ground.now).list v w → EdgeSound (plain_sealed ground.now).list v w) }
{
    cells
        .iter()
        .all(|&t| cell_edges_sound(ground, v, t as usize))
}

/// Whether the vertex v is sound: all edges at it are sound, and its cells reach one another by
/// crossing joined triangles that hold it.
pub fn vertex_sound(ground: &Sealed, v: u16) -> Result<bool, Refusal>
    ensures { TellsVertexSound (plain_sealed ground.now).list v result }
{
    // With its counts a ground tells that its cells are few, so that the list is long enough.
    let _ = ground.counts();
    // room for any ground, since the libraries allocate nothing
    let mut cells = [0; 1024];
    let size = ground.star(v, &mut cells)?;
    if size == 0 {
        return Err(Refusal::InNoCell);
    }
    Ok(linked(ground, v, v, size) && edges_sound(ground, v, &cells[..size]))
}
