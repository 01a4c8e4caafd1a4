//! A number, as an order writes it. Digit by digit: to ask for text first, and then for `parse`, goes over each digit
//! twice, and over a long word whole.
ghost use Rattle.std.specs.Prelude.{◌≡◌, ◌<◌, ◌≤◌, true, false, length, MatchOption, slice_index};
ghost use Rattle.std.specs.Str.{all_ascii_digits};
ghost use Rattle.worklist.specs.ReaderSteps.{read_on, Reads};

// The largest number that an order may have.
const LARGEST: u32 = 65535;

// The value of at most five digits.
fn value(s: &[u8]) -> Option<u32>
    requires { length s.now ≤ 5 }
    ensures { MatchOption result (all_ascii_digits s.now ≡ false) (λ v. (all_ascii_digits s.now ≡ true) × (v ≡ read_on 0 s.now)) }
{
    let mut v = 0;
    for b in s {
        if !b.is_ascii_digit() {
            return None;
        }
        v = v * 10 + (*b - b'0') as u32;
    }
    Some(v)
}

// The number that the whole of `s` writes, where it has no leading zero.
fn plain(s: &[u8]) -> Option<u16>
    requires some { 0 < length s.now }
    requires led { slice_index s.now 0 ≡ 48 → length s.now ≡ 1 }
    ensures { Reads s.now result }
{
    if s.len() > 5 {
        return None;
    }
    match value(s) {
        Some(v) if v <= LARGEST => Some(v as u16),
        _ => None,
    }
}

// The number that the whole of `s` writes.
pub(crate) fn number(s: &[u8]) -> Option<u16>
    ensures { Reads s.now result }
{
    match s {
        [] => None,
        [b'0', _, ..] => None,
        _ => plain(s),
    }
}
