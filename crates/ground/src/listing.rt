//! Cells and half-faces that pass a test, counted and written into a list in rising order.
ghost use Rattle.std.specs.Prelude.{◌≡◌, ℕ, ◌*◌, ◌<◌, ◌≤◌, Bool, length, take, drop};
ghost use Rattle.rules.specs.Tests.{picks};
ghost use Rattle.ground.specs.Listed.{has_both, open_at, lower_at, TestsBelow, Written, Tallied};

use crate::counts::Counts;
use crate::joined::Joined;
use crate::row::has;
use refusal::Refusal;

// How many numbers below n pass. A loop, here and below: of the closure of `(0..n).filter(..)` it cannot be shown that it is
// called below n alone, and a test of a cell may be called there alone.
fn count_passing<F: Fn(usize) -> bool>(passes: &F, n: usize) -> usize
    ghost f: { ℕ → Bool }
    requires { TestsBelow (F.pre passes.now) (F.post passes.now) f n }
    ensures { (result ≡ length (picks f n)) × (result ≤ n) }
{
    let mut found = 0;
    for k in 0..n {
        if passes(k) {
            found += 1;
        }
    }
    found
}

// Writes the numbers below n that pass, in rising order.
fn write_passing<F: Fn(usize) -> bool>(passes: &F, n: usize, out: &mut [u16])
    ghost f: { ℕ → Bool }
    requires tests { TestsBelow (F.pre passes.now) (F.post passes.now) f n }
    requires few { n ≤ 4096 }
    requires fits { length (picks f n) ≤ length out.old }
    ensures first { take (length (picks f n)) out.new ≡ picks f n }
    ensures rest { drop (length (picks f n)) out.new ≡ drop (length (picks f n)) out.old }
{
    let mut found = 0;
    for k in 0..n {
        if passes(k) {
            out[found] = k as u16;
            found += 1;
        }
    }
}

// Writes the numbers below n that pass and answers how many there are. They are counted first, so that a refusal writes nothing.
fn list_passing<F: Fn(usize) -> bool>(
    passes: F,
    n: usize,
    out: &mut [u16],
) -> Result<usize, Refusal>
    ghost f: { ℕ → Bool }
    requires tests { TestsBelow (F.pre passes) (F.post passes) f n }
    requires few { n ≤ 4096 }
    ensures { Written f n out.old result out.new }
{
    let found = count_passing(&passes, n);
    if found > out.len() {
        return Err(Refusal::ListTooShort);
    }
    write_passing(&passes, n, out);
    Ok(found)
}

impl Joined<'_> {
    // Whether cell t has both vertices; at v = w, the one vertex.
    fn has_both(&self, t: usize, v: u16, w: u16) -> bool
        requires { t < self.now.count }
        ensures { result ≡ has_both self.now.records.now v w t }
    {
        let row = self.records[t].corners;
        // not by `contains`: of an array inside a list's element a proof does not know how long it is
        has(row, 4, v) && has(row, 4, w)
    }

    // Whether half-face h is open.
    fn is_open(&self, h: usize) -> bool
        requires { h < 4 * self.now.count }
        ensures { result ≡ open_at self.now.records.now h }
    {
        self.opposite(h).is_none()
    }

    // Whether half-face h is joined to a higher one.
    fn is_lower(&self, h: usize) -> bool
        requires { h < 4 * self.now.count }
        ensures { result ≡ lower_at self.now.records.now h }
    {
        self.opposite(h).is_some_and(|g| h < g as usize)
    }

    // Writes the cells that have both vertices, in rising order.
    pub(crate) fn list_star(&self, v: u16, w: u16, out: &mut [u16]) -> Result<usize, Refusal>
        ensures { Written (has_both self.now.records.now v w) self.now.count out.old result out.new }
    {
        list_passing(move |t| self.has_both(t, v, w), self.count, out)
    }

    // Writes the open half-faces, in rising order.
    pub(crate) fn list_skin(&self, out: &mut [u16]) -> Result<usize, Refusal>
        ensures { Written (open_at self.now.records.now) (4 * self.now.count) out.old result out.new }
    {
        list_passing(|h| self.is_open(h), 4 * self.count, out)
    }

    // How many half-faces are joined to a higher one.
    fn count_joined(&self) -> usize
        ensures { (result ≡ length (picks (lower_at self.now.records.now) (4 * self.now.count))) × (result ≤ 4 * self.now.count) }
    {
        count_passing(&|h| self.is_lower(h), 4 * self.count)
    }

    // How many half-faces are open.
    fn count_skin(&self) -> usize
        ensures { (result ≡ length (picks (open_at self.now.records.now) (4 * self.now.count))) × (result ≤ 4 * self.now.count) }
    {
        count_passing(&|h| self.is_open(h), 4 * self.count)
    }

    // Counts the cells, the joined triangles and the skin triangles.
    pub(crate) fn counts(&self) -> Counts
        ensures { Tallied self.now.records.now self.now.count result }
    {
        Counts {
            cells: self.count as u16,
            joined: self.count_joined() as u16,
            skin: self.count_skin() as u16,
        }
    }
}
