//! An item put between others.
ghost use Rattle.std.specs.Prelude.{◌≡◌, ◌+◌, ◌<◌, ◌≤◌, ◌++◌, length, take, drop};
ghost use Rattle.std.specs.List.{insert};

// Moves the items from `at` up to `len` one place on, and writes the new one at `at`.
pub(crate) fn insert<T: Copy>(items: &mut [T], at: usize, len: usize, item: T)
    requires { (at ≤ len) × (len < length items.old) }
    ensures { items.new ≡ insert (take len items.old) at item ++ drop (len + 1) items.old }
{
    items.copy_within(at..len, at + 1);
    items[at] = item;
}
