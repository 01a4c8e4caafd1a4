//! What the keys of an index are.
ghost use Rattle.std.specs.Prelude.{◌≡◌};
ghost use Rattle.std.specs.declared.cmp.Ordering.{Ordering};
ghost use Rattle.index.specs.Orders.{TotalOrder};

use std::cmp::Ordering;

/// A kind of key with a total order. It need not be the key's own `Ord`, and no `Ord` is asked for.
pub trait Key: Copy {
    ghost order: { Self → Self → Ordering };

    /// How the key stands to another.
    fn compare(self, other: Self) -> Ordering
        ensures { result ≡ order self other };

    ghost total: { TotalOrder order };
}
