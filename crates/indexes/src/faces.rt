//! The face index: each triangle with its lowest half-face.
ghost use Rattle.std.specs.Prelude.{◌+◌, ◌<◌, ◌≤◌, length};
ghost use Rattle.ground.specs.Grounds.{plain_sealed};
ghost use Rattle.halves.specs.HalfFaces.{rows_of};
ghost use Rattle.index.specs.Held.{held};
ghost use Rattle.indexes.specs.Lists.{Makes};
ghost use Rattle.indexes.specs.Faces.{OnTriangle, FaceEntries};
ghost use Rattle.indexes.specs.Gathered.{FacesBefore};

use crate::handing::hand_over;
use crate::keys::rising_triple;
use ground::Sealed;
use halves::HalfFace;
use index::{Entry, TriangleIndex, Triple};
use refusal::Refusal;

// Puts the triangle of the half-face, unless a lower half-face has it too.
fn put_face(f: HalfFace, index: &mut TriangleIndex)
    requires room { 0 < length (held index.old).free }
    requires gathered { FacesBefore (rows_of f) f.number (held index.old).entries }
    ensures gathered { FacesBefore (rows_of f.entry) (f.entry.number + 1) (held index.new).entries }
    ensures room { length (held index.old).free ≤ length (held index.new).free + 1 }
    ensures on { (k : Triple) × OnTriangle (rows_of f.entry) k f.entry.number }
{
    let [a, b, c] = f.reading();
    let key = rising_triple(a, b, c);
    if index.find(key).is_none() {
        let half_face = f.number;
        index.put(Entry { key, half_face }).unwrap();
    }
}

// The index of all triangles, over free places. Apart from that of the edges: see there.
fn gather_faces<'a>(ground: &Sealed, places: &'a mut [Entry<Triple>]) -> TriangleIndex<'a>
    requires { 4096 ≤ length places.old }
    ensures { FaceEntries (plain_sealed ground.now).list (held result).entries }
{
    let mut index = TriangleIndex::over(places);
    // half-faces go by number: there is no list of them to go over
    let half_faces = 4 * ground.counts().cells;
    for h in 0..half_faces {
        put_face(HalfFace { ground, number: h }, &mut index);
    }
    index
}

/// The face index of the ground over the places: for each triangle its vertices in rising order, and
/// its lowest half-face. It answers how many there are; if they do not fit, it refuses with
/// `ListTooShort`, and the index is empty over the places as they were.
pub fn face_index<'p>(
    ground: &Sealed,
    places: &'p mut [Entry<Triple>],
) -> (TriangleIndex<'p>, Result<usize, Refusal>)
    ensures { Makes (FaceEntries (plain_sealed ground.now).list) places.old result.1 (held result.0) }
{
    let free = Entry {
        key: Triple {
            first: 0,
            second: 0,
            third: 0,
        },
        half_face: 0,
    };
    // Each half-face puts one entry at most, and a ground has 4,096 of them at most; the libraries
    // allocate nothing.
    let mut own = [free; 4096];
    let gathered = gather_faces(ground, &mut own);
    hand_over(gathered.entries(), places)
}
