//! A net whose items have been counted, which shows that its web is sound.
ghost use Rattle.std.specs.Prelude.{◌≡◌};
ghost use Rattle.std.proofs.Props.{props};
ghost use Rattle.carry.specs.Webs.{Sound};

use crate::net::Net;

/// A net with the number of its items. That an item is below it, and that lists are long enough, each method says of its own.
#[derive(Drop)]
pub(crate) struct CountedNet<'n, N: Net> {
    pub(crate) net: &'n N,
    pub(crate) count: usize,
    ghost items: { count ≡ (N.web net.now).items },
    ghost sound: { Sound (N.web net.now) N.Label.Label.kind } by { Prim.hlevel props },
}
