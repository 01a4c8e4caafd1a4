//! Keys found in the indexes of a ground: a function for each kind of key, since they differ in each step,
//! the key, how many places there are and the call.
ghost use Rattle.std.specs.Prelude.{◌≡◌, ℕ, ◌≤◌};
ghost use Rattle.index.specs.Keys.{triple_order, pair_order};
ghost use Rattle.indexes.specs.Faces.{FaceEntries};
ghost use Rattle.indexes.specs.Edges.{EdgeEntries};
ghost use Rattle.ground.specs.Grounds.{plain_sealed};
ghost use Rattle.journal.specs.Steps.{TellsFound};

use ground::Sealed;
use index::{Entry, Pair, Triple};
use indexes::{edge_index, face_index};
use refusal::Refusal;

// The half-face of the triangle in the face index, which is made over so many places.
pub(crate) fn find_face(ground: &Sealed, key: Triple, places: usize) -> Result<Option<u16>, Refusal>
    requires { places ≤ 4096 }
    ensures { TellsFound (FaceEntries (plain_sealed ground.now).list) triple_order key places result }
{
    // room for any ground, since the libraries allocate nothing
    let mut own = [Entry { key, half_face: 0 }; 4096];
    let (index, answer) = face_index(ground, &mut own[..places]);
    answer?;
    Ok(index.find(key))
}

// The half-face of the edge in the edge index, which is made over so many places.
pub(crate) fn find_edge(ground: &Sealed, key: Pair, places: usize) -> Result<Option<u16>, Refusal>
    requires { places ≤ 12288 }
    ensures { TellsFound (EdgeEntries (plain_sealed ground.now).list) pair_order key places result }
{
    // room for any ground, since the libraries allocate nothing
    let mut own = [Entry { key, half_face: 0 }; 12288];
    let (index, answer) = edge_index(ground, &mut own[..places]);
    answer?;
    Ok(index.find(key))
}
