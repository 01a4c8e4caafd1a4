//! The mate of a skin triangle at one of its edges.
ghost use Rattle.rules.specs.Joins.{OnSkin};
ghost use Rattle.rules.specs.Nets.{AllOpposed};
ghost use Rattle.rules.specs.Mates.{Mated, MatesOpposed};
ghost use Rattle.ground.specs.Grounds.{plain_sealed};
ghost use Rattle.halves.specs.HalfFaces.{rows_of};
ghost use Rattle.mates.specs.Mating.{TellsMate, LeadsBack};

use crate::edge::place_of;
use crate::side::EdgeSide;
use crate::walk::walk;
use ground::Sealed;
use halves::{EdgePlace, HalfFace};
use refusal::Refusal;

// The mate of an open half-face at one of its edges.
fn mate_at(here: HalfFace, place: EdgePlace) -> EdgeSide
    requires { OnSkin (rows_of here) here.number }
    ensures { Mated (rows_of here.entry) here.entry.number place.number result.half_face result.place }
{
    let edge = here.edge(place);
    let there = walk(here, edge);
    EdgeSide {
        half_face: there.number,
        place: place_of(there, edge).number,
    }
}

/// The mate of the open half-face h at its edge `place`, and the edge's place there: the way goes
/// round the edge, from cell to cell, to the next open half-face. Asked of the mate, the question
/// leads back. Where all joined triangles read opposite ways, mates read their edge in opposite
/// directions.
pub fn mate(ground: &Sealed, h: u16, place: u16) -> Result<EdgeSide, Refusal>
    ensures tells { TellsMate (plain_sealed ground.now).list h place result }
    ensures back { LeadsBack (plain_sealed ground.now).list h place result }
    ensures opposed { AllOpposed (plain_sealed ground.now).list → MatesOpposed (plain_sealed ground.now).list }
{
    // With its counts a ground tells that its rows are lawful, on which the last promise rests.
    let _ = ground.counts();
    let place = EdgePlace::try_from(place)?;
    let here = HalfFace::of(ground, h)?;
    if !here.is_open() {
        return Err(Refusal::HalfFaceJoined);
    }
    Ok(mate_at(here, place))
}
