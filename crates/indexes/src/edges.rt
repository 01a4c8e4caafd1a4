//! The edge index: each edge with the half-face that stands for it.
ghost use Rattle.std.specs.Prelude.{◌≡◌, ℕ, ◌+◌, ◌<◌, ◌≤◌, ◌↔◌, length, Some, IsTrue};
ghost use Rattle.rules.specs.Joins.{Half, OnSkin};
ghost use Rattle.ground.specs.Grounds.{plain_sealed};
ghost use Rattle.halves.specs.HalfFaces.{rows_of};
ghost use Rattle.index.specs.Entries.{half_face_of};
ghost use Rattle.index.specs.Held.{held};
ghost use Rattle.index.specs.Keys.{pair_order};
ghost use Rattle.indexes.specs.Lists.{Makes};
ghost use Rattle.indexes.specs.Edges.{RatherHalf, EdgeEntries};
ghost use Rattle.indexes.specs.Gathered.{EdgesBefore, Offered};

use crate::handing::hand_over;
use crate::keys::rising_pair;
use crate::rule::{Side, stands};
use ground::Sealed;
use halves::HalfFace;
use index::{EdgeIndex, Entry, Pair};
use refusal::Refusal;

// A half-face, and whether it is open. No `From`, since nobody else asks for it.
fn side(f: HalfFace) -> Side
    ensures same { result.half_face ≡ f.entry.number }
    ensures skin { IsTrue result.is_open ↔ OnSkin (rows_of f.entry) f.entry.number }
{
    Side {
        half_face: f.number,
        is_open: f.is_open(),
    }
}

// Offers the half-face for one of its edges.
fn put_edge(f: HalfFace, key: Pair, index: &mut EdgeIndex)
    requires room { 0 < length (held index.old).free }
    requires found { (g : ℕ) → half_face_of pair_order key (held index.old).entries ≡ Some g → Half (rows_of f) g }
    ensures offered { Offered pair_order (RatherHalf (rows_of f.entry)) key f.entry.number (held index.old).entries (held index.new).entries }
    ensures room { length (held index.old).free ≤ length (held index.new).free + 1 }
{
    let half_face = match index.find(key) {
        None => f.number,
        Some(number) => {
            let ground = f.ground;
            let held = HalfFace { ground, number };
            stands(side(held), side(f)).half_face
        }
    };
    index.put(Entry { key, half_face }).unwrap();
}

// Offers the half-face for its three edges.
fn put_edges(f: HalfFace, index: &mut EdgeIndex)
    requires room { 3 ≤ length (held index.old).free }
    requires gathered { EdgesBefore (rows_of f) f.number (held index.old).entries }
    ensures gathered { EdgesBefore (rows_of f.entry) (f.entry.number + 1) (held index.new).entries }
    ensures room { length (held index.old).free ≤ length (held index.new).free + 3 }
{
    let [a, b, c] = f.reading();
    // three calls, since a list of the keys and a loop over it would be no shorter
    put_edge(f, rising_pair(a, b), index);
    put_edge(f, rising_pair(b, c), index);
    put_edge(f, rising_pair(a, c), index);
}

// The index of all edges, over free places. It differs from that of the triangles in what each half-face
// puts and how much, which is all that there is here; what is done alike is `hand_over`.
fn gather_edges<'a>(ground: &Sealed, places: &'a mut [Entry<Pair>]) -> EdgeIndex<'a>
    requires { 12288 ≤ length places.old }
    ensures { EdgeEntries (plain_sealed ground.now).list (held result).entries }
{
    let mut index = EdgeIndex::over(places);
    // half-faces go by number: there is no list of them to go over
    let half_faces = 4 * ground.counts().cells;
    for h in 0..half_faces {
        put_edges(HalfFace { ground, number: h }, &mut index);
    }
    index
}

/// The edge index of the ground over the places: for each edge its two vertices in rising order, and
/// the half-face that stands for it. It answers how many there are; if they do not fit, it refuses
/// with `ListTooShort`, and the index is empty over the places as they were.
// Apart from `face_index`: the key, the room and what is gathered differ, and no more is here.
pub fn edge_index<'p>(
    ground: &Sealed,
    places: &'p mut [Entry<Pair>],
) -> (EdgeIndex<'p>, Result<usize, Refusal>)
    ensures { Makes (EdgeEntries (plain_sealed ground.now).list) places.old result.1 (held result.0) }
{
    let free = Entry {
        key: Pair {
            first: 0,
            second: 0,
        },
        half_face: 0,
    };
    // Each half-face puts three entries at most, and a ground has 4,096 of them at most; the libraries
    // allocate nothing.
    let mut own = [free; 12288];
    let gathered = gather_edges(ground, &mut own);
    hand_over(gathered.entries(), places)
}
