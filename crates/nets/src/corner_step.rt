//! How the corners of two joined cells lie.
ghost use Rattle.std.specs.Prelude.{◌≡◌, ◌<◌, All, IsNone, ◌==◌, ◌≢◌, position};
ghost use Rattle.carry.specs.Corners.{corner_meaning};
ghost use Rattle.rules.specs.Joins.{Joined};
ghost use Rattle.rules.specs.NetTests.{corner_at, sent, crossing};
ghost use Rattle.rules.specs.Pits.{Rings};
ghost use Rattle.halves.specs.HalfFaces.{rows_of};

use carry::Corner;
use halves::HalfFace;

// The first corner at the vertex v, if there is one.
fn first_corner(row: [u16; 4], v: u16) -> Option<usize>
    ensures first { result ≡ position (λ u. u == v) row }
    ensures none { IsNone result → All (λ u. u ≢ v) row }
{
    row.iter().position(|u| *u == v)
}

// The corner at the vertex v, or the last.
fn corner_at(row: [u16; 4], v: u16) -> u8
    ensures { result ≡ corner_at row v }
{
    // the definition answers the last corner where v is at none
    first_corner(row, v).map_or(3, |corner| corner as u8)
}

// The corner of `here` that corner k of `there` is sent to. Each row with its corner, as the definition has
// them.
fn sent_to(here: [u16; 4], side: usize, there: [u16; 4], entered: usize, k: usize) -> u8
    requires { (side < 4) × (k < 4) }
    ensures { result ≡ sent here side there entered k }
{
    if k == entered {
        side as u8
    } else {
        corner_at(here, there[k])
    }
}

// How the corners of the cell of `there` lie where it is joined to `here`.
pub(crate) fn corners_between(here: HalfFace, there: HalfFace) -> Corner
    requires joined { Joined (rows_of here) here.number there.number }
    requires same { rows_of there ≡ rows_of here }
    ensures { corner_meaning result ≡ crossing (rows_of here.entry) here.entry.number there.entry.number }
{
    let x = here.corners();
    let y = there.corners();
    let i = here.number as usize % 4;
    let j = there.number as usize % 4;
    let sent = |k| sent_to(x, i, y, j, k);
    let Some(step) = Corner::new(sent(0), sent(1), sent(2), sent(3)) else {
        unreachable()
    };
    step
}

/// The corner labels of rings of three and four cells.
pub fn rings_stand()
    ensures { Rings }
{}
