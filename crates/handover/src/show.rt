//! Lines of a journal, as they are printed.
use index::{Pair, Triple};
use journal::{Answer, Call, Change, Exchange, Question, Reply};
use mates::EdgeSide;
use std::fmt;

// A part of a line.
#[derive(Clone, Copy)]
struct Shown<T>(T);

impl fmt::Display for Shown<Change> {
    fn fmt<W: fmt::Write>(&self, f: &mut fmt::Formatter<W>) -> fmt::Result {
        match self.0 {
            Change::Lay(a, b, c, d) => write!(f, "lay {a} {b} {c} {d}"),
            Change::Lift(t) => write!(f, "lift {t}"),
            Change::Turn(t) => write!(f, "turn {t}"),
            Change::Orient(labels, marks) => write!(
                f,
                "orient, labels and marks {} {}",
                labels.places, marks.places
            ),
        }
    }
}

impl fmt::Display for Shown<Question> {
    fn fmt<W: fmt::Write>(&self, f: &mut fmt::Formatter<W>) -> fmt::Result {
        match self.0 {
            Question::Counts => write!(f, "cells, joined and skin triangles"),
            Question::Changes => write!(f, "accepted changes"),
            Question::Reading(h) => write!(f, "reading of half-face {h}"),
            Question::Opposite(h) => write!(f, "opposite of half-face {h}"),
            Question::Mate(h, place) => write!(f, "mate of half-face, at place {h} {place}"),
            Question::Star(v, _) => write!(f, "cells at vertex {v}"),
            Question::EdgeStar(v, w, _) => write!(f, "cells at edge {v} {w}"),
            Question::Skin(_) => write!(f, "skin"),
            Question::EdgeSound(v, w) => write!(f, "soundness of edge {v} {w}"),
            Question::VertexSound(v) => write!(f, "soundness of vertex {v}"),
            Question::FindFace(key, _) => write!(f, "face index at triangle {}", Shown(key)),
            Question::FindEdge(key, _) => write!(f, "edge index at edge {}", Shown(key)),
            Question::CarryTurns(_, _) => write!(f, "carry over the turn net"),
            Question::CarryCorners(_, _) => write!(f, "carry over the corner net"),
            Question::CarrySkin(_, _) => write!(f, "carry over the skin net"),
        }
    }
}

impl fmt::Display for Shown<Triple> {
    fn fmt<W: fmt::Write>(&self, f: &mut fmt::Formatter<W>) -> fmt::Result {
        let Triple {
            first,
            second,
            third,
        } = self.0;
        write!(f, "{first} {second} {third}")
    }
}

impl fmt::Display for Shown<Pair> {
    fn fmt<W: fmt::Write>(&self, f: &mut fmt::Formatter<W>) -> fmt::Result {
        let Pair { first, second } = self.0;
        write!(f, "{first} {second}")
    }
}

impl fmt::Display for Shown<Call> {
    fn fmt<W: fmt::Write>(&self, f: &mut fmt::Formatter<W>) -> fmt::Result {
        match self.0 {
            Call::Change(change) => write!(f, "{}", Shown(change)),
            Call::Seal => write!(f, "seal"),
            Call::Reopen => write!(f, "reopen"),
            Call::Ask(question) => write!(f, "{}", Shown(question)),
            Call::Carry(_, _) => write!(f, "carry over the company's net"),
        }
    }
}

impl fmt::Display for Shown<Answer> {
    fn fmt<W: fmt::Write>(&self, f: &mut fmt::Formatter<W>) -> fmt::Result {
        match self.0 {
            Answer::Number(n) => write!(f, "ok {n}"),
            Answer::Done => write!(f, "ok"),
            Answer::Counted(counts) => write!(
                f,
                "ok {} {} {}",
                counts.cells, counts.joined, counts.skin
            ),
            Answer::Reads(vertices) => {
                let [p, q, r] = vertices;
                write!(f, "vertices {p} {q} {r}")
            }
            Answer::Told(Some(h)) => write!(f, "half-face {h}"),
            Answer::Told(None) => write!(f, "none"),
            Answer::Mate(EdgeSide { half_face, place }) => write!(
                f,
                "half-face, at place {half_face} {place}"
            ),
            Answer::Sound(sound) => write!(f, "{}", if sound { "sound" } else { "not sound" }),
        }
    }
}

impl fmt::Display for Shown<Reply> {
    fn fmt<W: fmt::Write>(&self, f: &mut fmt::Formatter<W>) -> fmt::Result {
        match self.0 {
            Some(Ok(answer)) => write!(f, "{}", Shown(answer)),
            Some(Err(refusal)) => write!(f, "no {}", refusal.number()),
            None => write!(f, "not made"),
        }
    }
}

/// One line: the call, what came of it, and those of the numbers that it listed.
#[derive(Clone, Copy)]
pub(crate) struct Line<'a> {
    pub exchange: Exchange,
    pub numbers: &'a [u16],
}

impl Line<'_> {
    // The numbers that a list question wrote, or none.
    fn listed(&self) -> Option<&[u16]> {
        let part = match self.exchange.call {
            Call::Ask(
                Question::Star(_, part) | Question::EdgeStar(_, _, part) | Question::Skin(part),
            ) => part,
            _ => return None,
        };
        let Some(Ok(Answer::Number(many))) = self.exchange.reply else {
            return None;
        };
        self.numbers.get(part.from..)?.get(..many)
    }
}

impl fmt::Display for Line<'_> {
    fn fmt<W: fmt::Write>(&self, f: &mut fmt::Formatter<W>) -> fmt::Result {
        let Exchange { call, reply } = self.exchange;
        write!(f, "{} - {}", Shown(call), Shown(reply))?;
        if let Some(listed) = self.listed() {
            write!(f, ":")?;
            for n in listed {
                write!(f, " {n}")?;
            }
        }
        Ok(())
    }
}
