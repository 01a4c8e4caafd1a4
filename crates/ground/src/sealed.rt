//! The questions of a sealed ground.
ghost use Rattle.std.specs.Prelude.{◌≡◌, ◌≤◌};
ghost use Rattle.rules.specs.Joins.{NoThree, LawfulRows};
ghost use Rattle.rules.specs.Questions.{Counted, TellsReading, TellsOpposite, OnlyOpposite, TellsStar, TellsEdgeStar, TellsSkin};
ghost use Rattle.rules.specs.Nets.{TurnWeb, TurnsMeant};
ghost use Rattle.rules.specs.NetTests.{turn_web};
ghost use Rattle.ground.specs.Grounds.{plain, plain_sealed};
ghost use Rattle.ground.specs.Nets.{turn_net_web};

use crate::cells::Cells;
use crate::counts::Counts;
use crate::numbers::{low, numbered};
use crate::stage::{Open, Sealed};
use crate::turn_net::TurnNet;
use refusal::Refusal;

impl<'a> Sealed<'a> {
    /// The same ground, open for changes again.
    pub fn reopen(self) -> Open<'a>
        ensures { plain result ≡ plain_sealed self.entry }
    {
        let Sealed {
            cells,
            changes,
            counts: _,
        } = self;
        Open { cells, changes }
    }

    /// How many cells, joined triangles and skin triangles there are.
    pub fn counts(&self) -> Counts
        ensures counted { Counted (plain_sealed self.now).list result.cells result.joined result.skin }
        ensures lawful { LawfulRows (plain_sealed self.now).list }
        ensures few { result.cells ≤ 1024 }
    {
        self.counts
    }

    /// How many lays, lifts, turns and orients were accepted; the count stops at 65,535.
    pub fn changes(&self) -> u16
        ensures { result ≡ (plain_sealed self.now).changes }
    {
        self.changes
    }

    /// The three vertices that half-face h reads.
    pub fn reading(&self, h: u16) -> Result<[u16; 3], Refusal>
        ensures { TellsReading (plain_sealed self.now).list h result }
    {
        let h = numbered(h, 4 * self.cells.count)?;
        Ok(self.cells.joined().reading(h))
    }

    /// The opposite of half-face h, or none if it is open.
    pub fn opposite(&self, h: u16) -> Result<Option<u16>, Refusal>
        ensures tells { TellsOpposite (plain_sealed self.now).list h result }
        ensures only { OnlyOpposite (plain_sealed self.now).list h result }
        ensures no_three { NoThree (plain_sealed self.now).list }
    {
        let h = numbered(h, 4 * self.cells.count)?;
        Ok(self.cells.joined().opposite(h))
    }

    /// The turn net of the cells. Labels agree over it exactly when turning by them makes all joined
    /// triangles read opposite ways.
    pub fn turn_net(&self) -> TurnNet<'_>
        ensures turns { TurnWeb (plain_sealed self.now).list (turn_net_web result) }
        ensures computed { turn_net_web result ≡ turn_web (plain_sealed self.now).list }
        ensures meant { TurnsMeant (plain_sealed self.now).list }
    {
        self.cells.turn_net()
    }

    /// Writes the cells at the vertex v into `out`, in rising order, and answers how many there are.
    pub fn star(&self, v: u16, out: &mut [u16]) -> Result<usize, Refusal>
        ensures { TellsStar (plain_sealed self.now).list v out.old result out.new }
    {
        low(v)?;
        self.cells.joined().list_star(v, v, out)
    }

    /// Writes the cells at the edge of v and w into `out`, in rising order, and answers how many there are.
    pub fn edge_star(&self, v: u16, w: u16, out: &mut [u16]) -> Result<usize, Refusal>
        ensures { TellsEdgeStar (plain_sealed self.now).list v w out.old result out.new }
    {
        low(v)?;
        low(w)?;
        if v == w {
            return Err(Refusal::VerticesEqual);
        }
        self.cells.joined().list_star(v, w, out)
    }

    /// Writes the open half-faces into `out`, in rising order, and answers how many there are.
    pub fn skin(&self, out: &mut [u16]) -> Result<usize, Refusal>
        ensures { TellsSkin (plain_sealed self.now).list out.old result out.new }
    {
        self.cells.joined().list_skin(out)
    }
}
