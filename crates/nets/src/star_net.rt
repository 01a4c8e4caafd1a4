//! The star net: the cells, joined across the triangles that hold an edge or a vertex.
ghost use Rattle.std.specs.Prelude.{◌≡◌};
ghost use Rattle.rules.specs.NetTests.{holds, star_web};
ghost use Rattle.ground.specs.Grounds.{plain_sealed};
ghost use Rattle.halves.specs.HalfFaces.{rows_of};

use carry::{Net, Place, Turn};
use ground::Sealed;
use halves::HalfFace;

// All steps are straight, so labels always agree: carry counts the pieces. Two vertices and no `Edge`, since at
// v = w they are one.
#[derive(Clone, Copy)]
pub(crate) struct StarNet<'g, 'a> {
    pub(crate) ground: &'g Sealed<'a>,
    pub(crate) v: u16,
    pub(crate) w: u16,
}

// Whether the half-face has both vertices.
fn holds(half_face: HalfFace, v: u16, w: u16) -> bool
    ensures { result ≡ holds (rows_of half_face.entry) v w half_face.entry.number }
{
    let triangle = half_face.reading();
    triangle.contains(&v) && triangle.contains(&w)
}

impl Net for StarNet<'_, '_> {
    type Label = Turn;

    const SIDES: usize = 4;

    ghost web = { λ n. star_web (plain_sealed n.ground.now).list n.v n.w };

    fn side_count(&self) -> usize {
        Self::SIDES
    }

    fn count(&self) -> usize {
        self.ground.counts().cells as usize
    }

    fn join(&self, item: usize, side: usize) -> Option<Place> {
        // first whether the side is joined: an open one need not be read
        let joined = self.ground.turn_net().join(item, side)?;
        let crossed = HalfFace::at(self.ground, item, side)?;
        if !holds(crossed, self.v, self.w) {
            return None;
        }
        Some(joined)
    }

    fn step(&self, _item: usize, _side: usize) -> Turn {
        Turn::Straight
    }
}
