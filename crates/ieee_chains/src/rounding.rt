// The rounding of every step: a whole number, with a sticky digit below it, to 53 digits.
ghost use Rattle.std.specs.Prelude.{◌≡◌, ◌^◌, ◌≤◌, ◌<◌};
ghost use Rattle.ieee_chains.specs.Open.{Digits};
ghost use Rattle.ieee_chains.specs.Rounding.{up_of, digits_of};

// A whole number of 54 to 62 digits, and a little more where the sticky digit is 1.
#[derive(Clone, Copy)]
pub struct Sum {
    pub whole: u64,
    pub sticky: u64,
    ghost over: { 2 ^ 53 ≤ whole },
    ghost under: { whole < 2 ^ 62 },
    ghost digit: { sticky ≤ 1 },
}

// The digits, and by how many places the number was raised for them.
#[derive(Clone, Copy)]
pub struct Rounded {
    pub digits: u64,
    pub up: u64,
}

impl Sum {
    // To 53 digits. The sticky digit is put below the others when they stand in their place, so that nothing
    // waits for it.
    pub fn rounded(self) -> Rounded
        ensures { (result.digits ≡ digits_of self.whole self.sticky) × (result.up ≡ up_of self.whole) × Digits result.digits × (result.up ≤ 9) }
    {
        let up = self.whole.leading_zeros() as u64 - 1;
        let m = (self.whole << up) + self.sticky;
        Rounded {
            digits: (m + 511 + m / 1024 % 2) / 1024,
            up,
        }
    }
}
