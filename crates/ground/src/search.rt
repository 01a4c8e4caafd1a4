//! The search for the half-faces that the four triangles of a new cell meet.
ghost use Rattle.std.specs.Prelude.{◌≡◌, ◌%◌, ◌<◌, count_by};
ghost use Rattle.rules.specs.Tests.{on};
ghost use Rattle.ground.specs.Nets.{joined_rows};
ghost use Rattle.ground.specs.Searches.{within, same_face, picked, picked_all, met_with, joined_at, any_joined, Scanned, Partners};

use crate::joined::Joined;
use crate::row::has;
use refusal::Refusal;
use std::array;

// Whether each vertex of triangle i of x is on triangle j of y (at 4: the whole row, as the definitions have
// it). Two rows, each with a corner, are no struct, here and below: nothing holds of them together.
fn lies_on(x: [u16; 4], i: usize, y: [u16; 4], j: usize) -> bool
    ensures { result ≡ within x i y j }
{
    x.iter().enumerate().all(|(k, &v)| i == k || has(y, j, v))
}

// Whether triangle i of x and triangle j of y have the same vertices (at 4: the whole row).
fn same_vertices(x: [u16; 4], i: usize, y: [u16; 4], j: usize) -> bool
    ensures { result ≡ same_face x i y j }
{
    lies_on(x, i, y, j) && lies_on(y, j, x, i)
}

// The half-face of the row y, the first of which is h, on triangle i of x; else what was found before.
fn pick(before: Option<u16>, x: [u16; 4], i: usize, y: [u16; 4], h: u16) -> Option<u16>
    requires { (h < 4096) × (h % 4 ≡ 0) }
    ensures { result ≡ picked before x i y h }
{
    (h..h + 4)
        .find(|&g| same_vertices(x, i, y, g as usize % 4))
        .or(before)
}

// How many corners of x are vertices of y.
fn shared(x: [u16; 4], y: [u16; 4]) -> usize
    ensures { result ≡ count_by (λ v. on y 4 v) x }
{
    x.iter().filter(|&v| y.contains(v)).count()
}

// What the row, the first half-face of which is h, adds to what was found; nothing if it has the same four vertices.
// Most rows share fewer than three vertices with the new cell, so that is tested first.
fn meet(
    found: [Option<u16>; 4],
    corners: [u16; 4],
    row: [u16; 4],
    h: u16,
) -> Option<[Option<u16>; 4]>
    requires { (h < 4096) × (h % 4 ≡ 0) }
    ensures { result ≡ met_with found corners row h }
{
    if shared(corners, row) < 3 {
        return Some(found);
    }
    if same_vertices(row, 4, corners, 4) {
        return None;
    }
    Some(array::from_fn(|i| pick(found[i], corners, i, row, h)))
}

impl Joined<'_> {
    // For each triangle of the corners a half-face on it, or none; nothing if a cell has the same four vertices.
    fn scan(&self, corners: [u16; 4]) -> Option<[Option<u16>; 4]>
        ensures { Scanned (joined_rows self.now) corners result }
    {
        let mut found = [None; 4];
        for (t, cell) in self.records[..self.count].iter().enumerate() {
            found = meet(found, corners, cell.corners, 4 * t as u16)?;
        }
        Some(found)
    }

    // Whether the half-face has an opposite.
    fn is_joined(&self, whom: Option<u16>) -> bool
        ensures { result ≡ joined_at self.now.records.now whom }
    {
        let Some(g) = whom else {
            return false;
        };
        let h = g as usize;
        h / 4 < self.records.len() && self.opposite(h).is_some()
    }

    // Whether one of the half-faces has an opposite.
    fn any_joined(&self, found: [Option<u16>; 4]) -> bool
        ensures { result ≡ any_joined self.now.records.now found }
    {
        found.iter().any(|&whom| self.is_joined(whom))
    }

    // For each triangle of the corners the half-face on it, or none. Refused if a cell has the same four vertices, else if a triangle is in two cells.
    pub(crate) fn partners(&self, corners: [u16; 4]) -> Result<[Option<u16>; 4], Refusal>
        ensures { Partners (joined_rows self.now) corners result }
    {
        let found = self.scan(corners).ok_or(Refusal::CellPresent)?;
        if self.any_joined(found) {
            return Err(Refusal::TriangleTaken);
        }
        Ok(found)
    }
}
