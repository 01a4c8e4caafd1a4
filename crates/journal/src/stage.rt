//! A ground between two calls.
ghost use Rattle.std.specs.Prelude.{◌≡◌};
ghost use Rattle.ground.specs.Grounds.{plain};
ghost use Rattle.journal.specs.Stages.{ground_of};

use ground::{Open, Sealed};

// Open or sealed. The ground counts its cells where it is sealed, so that waits for the first question.
#[derive(Drop)]
pub(crate) enum Stage<'a> {
    Open(Open<'a>),
    // sealed, with nothing asked yet
    Unasked(Open<'a>),
    Sealed(Sealed<'a>),
}

impl<'a> Stage<'a> {
    // The ground, reopened if it is sealed.
    pub(crate) fn opened(self) -> Open<'a>
        ensures { plain result ≡ (ground_of self.entry).plain }
    {
        match self {
            Stage::Open(ground) | Stage::Unasked(ground) => ground,
            Stage::Sealed(ground) => ground.reopen(),
        }
    }
}
