//! A kind of label, which is what is carried from item to item.
ghost use Rattle.std.specs.Prelude.{◌≡◌, ℕ, true};
ghost use Rattle.carry.specs.Kinds.{Kind, Group};

/// A kind of label. Labels of one meaning count as one, and by meaning the labels are a group.
pub trait Label: Sized {
    /// What a label means.
    ghost meaning: { Self → ℕ };

    /// How meanings are put together.
    ghost kind: { Kind };

    /// The label that changes nothing.
    fn neutral() -> Self
        ensures { meaning result ≡ kind.neutral };

    /// This label and then the other.
    fn combine(self, other: Self) -> Self
        ensures { meaning result ≡ kind.combined (meaning self) (meaning other) };

    /// The label that undoes this one.
    fn invert(self) -> Self
        ensures { meaning result ≡ kind.inverse (meaning self) };

    // Not `==`, which would ask more of whoever has labels of another kind.
    /// Whether the two mean the same.
    fn same(self, other: Self) -> bool
        ensures only { result ≡ true → meaning self ≡ meaning other }
        ensures all { meaning self ≡ meaning other → result ≡ true };

    ghost group: { Group meaning kind };
}
