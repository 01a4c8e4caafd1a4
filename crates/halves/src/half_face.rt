//! A half-face of a sealed ground.
ghost use Rattle.std.specs.Prelude.{◌≡◌, ◌/◌, ◌≤◌, [], IsTrue, ◌↔◌, length, slice_index_or};
ghost use Rattle.refusal.specs.Causes.{Answered};
ghost use Rattle.rules.specs.Rows.{vertices};
ghost use Rattle.rules.specs.Readings.{reads, listed};
ghost use Rattle.rules.specs.Joins.{Half, OnSkin, LawfulRows};
ghost use Rattle.rules.specs.Questions.{HalfCause};
ghost use Rattle.rules.specs.Mates.{Runs};
ghost use Rattle.ground.specs.Grounds.{plain_sealed};

use crate::edge::{Edge, EdgePlace};
use ground::Sealed;
use refusal::Refusal;

/// A half-face that is there, by its number. Whoever makes one shows that it is.
#[derive(Clone, Copy)]
pub struct HalfFace<'g, 'a> {
    pub ground: &'g Sealed<'a>,
    pub number: u16,
    ghost present: { Half (plain_sealed ground.now).list number },
    ghost few: { length (plain_sealed ground.now).list ≤ 1024 },
    ghost lawful: { LawfulRows (plain_sealed ground.now).list },
}

impl<'g, 'a> HalfFace<'g, 'a> {
    ghost use Rattle.halves.specs.HalfFaces.{rows_of, HalfFaceAt, OppositeOf};

    /// Half-face h of the ground.
    pub fn of(ground: &'g Sealed<'a>, h: u16) -> Result<HalfFace<'g, 'a>, Refusal>
        ensures { Answered (HalfCause (plain_sealed ground.now).list h) (λ f. (f.ground ≡ ground.entry) × (f.number ≡ h)) result }
    {
        if h >= 4 * ground.counts().cells {
            return Err(Refusal::NoSuchNumber);
        }
        Ok(HalfFace { ground, number: h })
    }

    /// Half-face `side` of the cell `cell`; out of range, none.
    pub fn at(ground: &'g Sealed<'a>, cell: usize, side: usize) -> Option<HalfFace<'g, 'a>>
        ensures { HalfFaceAt ground.entry cell side result }
    {
        if cell < ground.counts().cells as usize && side < 4 {
            Some(HalfFace {
                ground,
                number: (4 * cell + side) as u16,
            })
        } else {
            None
        }
    }

    /// The three vertices that it reads.
    pub fn reading(self) -> [u16; 3]
        ensures { result ≡ listed (reads (rows_of self.entry) self.entry.number) }
    {
        let Ok(vertices) = self.ground.reading(self.number) else {
            unreachable()
        };
        vertices
    }

    /// The edge at that place of it.
    pub fn edge(self, place: EdgePlace) -> Edge
        ensures { Runs (reads (rows_of self.entry) self.entry.number) place.number result.from result.to }
    {
        let [p, q, r] = self.reading();
        match place.number {
            0 => Edge { from: p, to: q },
            1 => Edge { from: q, to: r },
            _ => Edge { from: r, to: p },
        }
    }

    /// Its opposite, or none if it is open.
    pub fn opposite(self) -> Option<HalfFace<'g, 'a>>
        ensures { OppositeOf self.entry result }
    {
        let Ok(opposite) = self.ground.opposite(self.number) else {
            unreachable()
        };
        let number = opposite?;
        Some(HalfFace {
            ground: self.ground,
            number,
        })
    }

    /// Whether it is open.
    pub fn is_open(self) -> bool
        ensures { IsTrue result ↔ OnSkin (rows_of self.entry) self.entry.number }
    {
        self.opposite().is_none()
    }

    /// The vertices of its cell.
    pub fn corners(self) -> [u16; 4]
        ensures { result ≡ vertices (slice_index_or (rows_of self.entry) (self.entry.number / 4) []) }
    {
        let first = 4 * (self.number / 4);
        let face_0 = HalfFace {
            ground: self.ground,
            number: first,
        };
        let face_1 = HalfFace {
            ground: self.ground,
            number: first + 1,
        };
        let [b, c, d] = face_0.reading();
        let [_, a, _] = face_1.reading();
        [a, b, c, d]
    }
}
