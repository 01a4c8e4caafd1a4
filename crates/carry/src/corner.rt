//! The corner label: four different digits from 0 to 3, digit k being the colour of corner k.
ghost use Rattle.std.specs.Prelude.{◌≡◌, ◌<◌, true, false, Some, None};
ghost use Rattle.carry.specs.Digits.{different, digit, digits, number, place, corner_kind};

use crate::label::Label;

/// The digits a, b, c and d, in this order.
#[derive(Clone, Copy, PartialEq, Eq, Debug)]
pub struct Corner {
    a: u8,
    b: u8,
    c: u8,
    d: u8,
    ghost lawful: { different a b c d ≡ true },
}

// Whether these are four different digits from 0 to 3. Four numbers and no array, here and in `new`, which is
// public.
fn four_different(a: u8, b: u8, c: u8, d: u8) -> bool
    ensures { result ≡ different a b c d }
{
    let digits = [a, b, c, d];
    (0..4).all(|k| digits.contains(&k))
}

impl Corner {
    ghost use Rattle.carry.specs.Corners.{corner_meaning};

    /// The label with these digits, if they are four different ones from 0 to 3.
    pub fn new(a: u8, b: u8, c: u8, d: u8) -> Option<Corner>
        ensures { elim result [ Some x ↦ (different a b c d ≡ true) × (corner_meaning x ≡ number a b c d) | None ↦ different a b c d ≡ false ] }
    {
        if four_different(a, b, c, d) {
            return Some(Corner { a, b, c, d });
        }
        None
    }

    // No `From` beside this or the next: it would say the same twice.
    /// The four digits.
    #[tactic(auto, using(crate::specs::FourDigits::own_digits))]
    pub fn digits(self) -> [u8; 4]
        ensures { result ≡ digits (corner_meaning self) }
    {
        [self.a, self.b, self.c, self.d]
    }

    /// The four digits as one number.
    #[tactic(auto, using(crate::specs::FourDigits::low))]
    pub fn as_number(self) -> u16
        ensures { result ≡ corner_meaning self }
    {
        let Corner { a, b, c, d } = self;
        ((a as u16 * 10 + b as u16) * 10 + c as u16) * 10 + d as u16
    }

    // Digit k.
    fn digit_at(self, k: u8) -> u8
        requires { k < 4 }
        ensures { result ≡ digit (corner_meaning self) k }
    {
        self.digits()[k as usize]
    }

    // The place of the digit k; the last, as the definition has it, where the digit is not there.
    fn place_of(self, k: u8) -> u8
        ensures { result ≡ place (corner_meaning self) k }
    {
        match self.digits().iter().position(|&d| d == k) {
            Some(place) => place as u8,
            None => 3,
        }
    }
}

impl Label for Corner {
    ghost use Rattle.carry.specs.Corners.{corner_meaning};

    ghost meaning = { corner_meaning };

    ghost kind = { corner_kind };

    ghost use Rattle.carry.specs.CornerGroup.{corner_group};

    ghost group = { corner_group };

    #[tactic(auto, unfolding(crate::specs::Digits::different))]
    fn neutral() -> Corner {
        Corner {
            a: 0,
            b: 1,
            c: 2,
            d: 3,
        }
    }

    // Digit by digit, here and below: the four are fields, and a digit is looked up in another label.
    #[tactic(auto, using(crate::specs::FourDigits::low))]
    fn combine(self, other: Corner) -> Corner {
        Corner {
            a: self.digit_at(other.a),
            b: self.digit_at(other.b),
            c: self.digit_at(other.c),
            d: self.digit_at(other.d),
        }
    }

    fn invert(self) -> Corner {
        Corner {
            a: self.place_of(0),
            b: self.place_of(1),
            c: self.place_of(2),
            d: self.place_of(3),
        }
    }

    #[tactic(auto, using(crate::specs::CornerGroup::corner_equal))]
    fn same(self, other: Corner) -> bool {
        self == other
    }
}
