//! Writes of records: each keeps the joins of the neighbours in step. The slice and a cell's number are no struct, since what
//! holds of a ground is broken while its links are written; each write says in a word, `Linked`, what it rests on.
ghost use Rattle.std.specs.Prelude.{◌≡◌, ◌<◌, ◌≤◌, length};
ghost use Rattle.ground.specs.Records.{relinked, Near, relinked_all, AllNear, faces_of, nones, freed, moved_cells, turned_cells, laid_cells, lifted_cells, Linked};

use crate::cell::Cell;

// The half-face that `whom` names, where it names one, is joined to `to`.
fn relink(cells: &mut [Cell], whom: Option<u16>, to: Option<u16>)
    requires { Near (length cells.old) whom }
    ensures { cells.new ≡ relinked cells.old whom to }
{
    if let Some(g) = whom {
        let cell = &mut cells[g as usize / 4];
        cell.joins[g as usize % 4] = to;
    }
}

// Exchanges corners 2 and 3 of cell t.
pub(crate) fn turn_cell(cells: &mut [Cell], t: usize)
    requires { Linked cells.old t }
    ensures { cells.new ≡ turned_cells cells.old t }
{
    let [_, _, r, s] = cells[t].joins;
    cells[t] = cells[t].turned();
    let h = 4 * t as u16;
    relink(cells, r, Some(h + 3));
    relink(cells, s, Some(h + 2));
}

// Each half-face that `whom` names is joined to what stands at its place in `to`.
fn relink_all(cells: &mut [Cell], whom: [Option<u16>; 4], to: [Option<u16>; 4])
    requires { AllNear (length cells.old) whom }
    ensures { cells.new ≡ relinked_all cells.old whom to }
{
    for (half, back) in whom.iter().zip(&to) {
        relink(cells, *half, *back);
    }
}

// The numbers of the half-faces of cell t.
fn faces_of(t: usize) -> [Option<u16>; 4]
    requires { t < 1024 }
    ensures { result ≡ faces_of t }
{
    let h = 4 * t as u16;
    [h, h + 1, h + 2, h + 3].map(Some)
}

// Writes a new cell at the end, with its joins found already, and joins its neighbours to it. Corners and joins
// apart, as `append` has them.
pub(crate) fn lay_cell(cells: &mut [Cell], count: usize, corners: [u16; 4], joins: [Option<u16>; 4])
    requires low { count < 1024 }
    requires inside { count < length cells.old }
    requires near { AllNear (length cells.old) joins }
    ensures { cells.new ≡ laid_cells cells.old count corners joins }
{
    cells[count] = Cell { corners, joins };
    let to = faces_of(count);
    relink_all(cells, joins, to);
}

// Leaves cell t with no neighbour that names it.
fn free_cell(cells: &mut [Cell], t: usize)
    requires { Linked cells.old t }
    ensures { cells.new ≡ freed cells.old t }
{
    let whom = cells[t].joins;
    relink_all(cells, whom, [None; 4]);
}

// Writes cell `last` over cell t, and joins its neighbours to t.
fn move_cell(cells: &mut [Cell], last: usize, t: usize)
    requires before { t < last }
    requires linked { Linked cells.old last }
    ensures { cells.new ≡ moved_cells cells.old last t }
{
    let cell = cells[last];
    cells[t] = cell;
    let to = faces_of(t);
    relink_all(cells, cell.joins, to);
}

// Takes cell t out: cell `last` takes its place, unless t is the last.
pub(crate) fn lift_cell(cells: &mut [Cell], last: usize, t: usize)
    requires up_to_last { t ≤ last }
    requires linked { Linked cells.old t }
    requires last_linked { Linked (freed cells.old t) last }
    ensures { cells.new ≡ lifted_cells cells.old last t }
{
    free_cell(cells, t);
    if t < last {
        move_cell(cells, last, t);
    }
}
