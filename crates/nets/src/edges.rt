//! Whether the cells at an edge hang together across their triangles.
ghost use Rattle.std.specs.Prelude.{◌≡◌, true, ◌↔◌};
ghost use Rattle.rules.specs.Listings.{Many};
ghost use Rattle.rules.specs.Questions.{AtEdge};
ghost use Rattle.rules.specs.Soundness.{Linked, TellsEdgeSound};
ghost use Rattle.rules.specs.Pits.{Edges};
ghost use Rattle.ground.specs.Grounds.{plain_sealed};

use crate::star_net::StarNet;
use carry::{Label, Turn, carry};
use ground::Sealed;
use refusal::Refusal;

// Whether the cells that have v and w, of which there are `size`, reach one another across triangles
// that hold both. Each cell outside the star is a piece by itself. The two are no `Edge`, since at v = w
// they are one vertex.
pub(crate) fn linked(ground: &Sealed, v: u16, w: u16, size: usize) -> bool
    requires { Many (AtEdge (plain_sealed ground.now).list v w) size }
    ensures { (result ≡ true) ↔ Linked (plain_sealed ground.now).list v w }
{
    let count = ground.counts().cells as usize;
    let net = StarNet { ground, v, w };
    // The libraries allocate nothing, so there is room for the cells of any ground.
    let mut labels = [Turn::Straight; 1024];
    let mut marks = [0u8; 1024];
    let Ok(pieces) = carry(&net, &mut labels, &mut marks) else {
        unreachable()
    };
    pieces + size <= count + 1
}

/// Whether the edge of v and w is sound: its cells reach one another by crossing joined triangles
/// that hold the edge.
pub fn edge_sound(ground: &Sealed, v: u16, w: u16) -> Result<bool, Refusal>
    ensures { TellsEdgeSound (plain_sealed ground.now).list v w result }
{
    // With its counts a ground tells that its cells are few, so that the list is long enough.
    let _ = ground.counts();
    // room for any ground, since the libraries allocate nothing
    let mut cells = [0; 1024];
    let size = ground.edge_star(v, w, &mut cells)?;
    if size == 0 {
        return Err(Refusal::InNoCell);
    }
    Ok(linked(ground, v, w, size))
}

/// An edge that is not sound, and one that is.
pub fn edges_stand()
    ensures { Edges }
{}
