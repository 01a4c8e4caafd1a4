//! How the table of the skin net is built.
ghost use Rattle.std.specs.Prelude.{◌≡◌, ℕ, ◌*◌, ◌<◌, ◌≤◌, length, take, slice_index};
ghost use Rattle.rules.specs.SkinNets.{SkinWeb};
ghost use Rattle.ground.specs.Grounds.{plain_sealed};
ghost use Rattle.skin.specs.SkinTables.{skin_net_web};
ghost use Rattle.skin.specs.Pairing.{SkinOf, Numbered, Leads, LeadsAll};

use crate::directions::{edge, turn_between};
use crate::side::Side;
use crate::table::SkinNet;
use carry::Turn;
use ground::Sealed;
use mates::{EdgeSide, mate};

// Writes the skin triangles into `list`, in rising order, and answers how many there are.
fn skin_triangles(ground: &Sealed, list: &mut [u16]) -> usize
    requires { 4096 ≤ length list.old }
    ensures fits { result ≤ length list.new }
    ensures skin { SkinOf (plain_sealed ground.now).list (take result list.new) }
{
    // With its counts a ground tells that its cells are few, so that the list is long enough.
    let _ = ground.counts();
    let Ok(count) = ground.skin(list) else {
        unreachable()
    };
    count
}

// The item of each skin triangle, at its half-face number, so that a mate's is read and not searched for.
fn item_numbers(triangles: &[u16]) -> [u16; 4096]
    requires rising { (i j : ℕ) → i < j → j < length triangles.now → slice_index triangles.now i < slice_index triangles.now j }
    requires near { (i : ℕ) → i < length triangles.now → slice_index triangles.now i < 4096 }
    requires few { length triangles.now ≤ 4096 }
    ensures { Numbered triangles.now result }
{
    let mut items = [0; 4096];
    for (i, h) in triangles.iter().enumerate() {
        items[*h as usize] = i as u16;
    }
    items
}

// Where side k leads: edge place k % 3 of skin triangle k / 3. The ground and its skin triangles are no struct:
// what holds of the triangles finds an index, and no ghost field takes that.
fn side(ground: &Sealed, triangles: &[u16], items: &[u16], k: usize) -> Side
    requires skin { SkinOf (plain_sealed ground.now).list triangles.now }
    requires items { Numbered triangles.now items.now }
    requires near { k < 3 * length triangles.now }
    ensures { Leads (plain_sealed ground.now).list triangles.now k result }
{
    let here = EdgeSide {
        half_face: triangles[k / 3],
        place: (k % 3) as u16,
    };
    let Ok(there) = mate(ground, here.half_face, here.place) else {
        unreachable()
    };
    Side {
        mate: 3 * items[there.half_face as usize] + there.place,
        turn: turn_between(edge(ground, here), edge(ground, there)),
    }
}

// Where each side leads.
fn all_sides(ground: &Sealed, triangles: &[u16], items: &[u16]) -> [Side; 12288]
    requires skin { SkinOf (plain_sealed ground.now).list triangles.now }
    requires items { Numbered triangles.now items.now }
    requires few { length triangles.now ≤ 4096 }
    ensures { LeadsAll (plain_sealed ground.now).list triangles.now (3 * length triangles.now) result }
{
    let mut sides = [Side {
        mate: 0,
        turn: Turn::Straight,
    }; 12288];
    // By its index: of an array of its own that `iter_mut` goes over a proof knows nothing, and with
    // `array::from_fn` it was not found that each side is what `side` told.
    for k in 0..3 * triangles.len() {
        sides[k] = side(ground, triangles, items, k);
    }
    sides
}

/// The skin net of a sealed ground. A step is 1 where the two mates read their edge in the same
/// direction.
pub fn skin_net(ground: &Sealed) -> SkinNet
    ensures { SkinWeb (plain_sealed ground.now).list (skin_net_web result) }
{
    // room for any ground, since the libraries allocate nothing
    let mut list = [0; 4096];
    let count = skin_triangles(ground, &mut list);
    let triangles = &list[..count];
    let items = item_numbers(triangles);
    let sides = all_sides(ground, triangles, &items);
    SkinNet { count, sides }
}
