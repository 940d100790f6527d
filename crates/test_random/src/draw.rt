// Numbers that look random, the same at every run.
ghost use Rattle.std.specs.Prelude.{◌≡◌, ℕ, ◌*◌, ◌<◌, ◌≤◌, Some, slice_index};
ghost use Rattle.test_random.specs.Drawn.{name_of};

use std::fmt;

/// A linear congruential generator.
#[derive(Drop)]
pub struct Draws {
    pub state: u64,
}

impl Draws {
    /// A number below the bound; the high bits are the better ones.
    pub fn below(&mut self, bound: u32) -> u32
        requires { 0 < bound }
        ensures { result < bound }
    {
        self.state = self
            .state
            .wrapping_mul(6364136223846793005)
            .wrapping_add(1442695040888963407);
        // Below a u32: the cast loses nothing.
        ((self.state >> 33) % u64::from(bound)) as u32
    }

    /// How wide and high a field is: mostly 2 by 3 or 3 by 2.
    pub fn size(&mut self) -> (u64, u64)
        ensures some { 1 ≤ result.0 * result.1 }
        ensures few { result.0 * result.1 ≤ 6 }
    {
        match self.below(32) {
            0 => (1, 1 + u64::from(self.below(6))),
            1 => (1 + u64::from(self.below(6)), 1),
            2..=5 => (2, 2),
            6..=18 => (2, 3),
            _ => (3, 2),
        }
    }

    /// How many numbers a turn has.
    pub fn turn(&mut self) -> u32
        ensures { 2 ≤ result }
    {
        match self.below(4) {
            0 => 2,
            1 => 3,
            2 => 10,
            _ => 65536,
        }
    }
}

/// What prices are drawn from.
#[derive(Clone, Copy, PartialEq, Eq, Debug)]
pub enum Prices {
    One,
    Few,
    Any,
    MostlyNone,
}

impl Prices {
    // A price, each kind in its own way. What draws is handed on beside the kind: it draws for others in between.
    fn draw(self, draws: &mut Draws) -> u32
        ensures { result ≤ 1000 }
    {
        match self {
            Prices::One => 1,
            Prices::Few => draws.below(4),
            Prices::Any => draws.below(1001),
            Prices::MostlyNone => {
                if draws.below(3) > 0 {
                    return 0;
                }
                draws.below(1001)
            }
        }
    }

    /// A price for each of at most six places.
    pub fn draw_six(self, draws: &mut Draws) -> [u32; 6]
        ensures { (k : ℕ) → k < 6 → slice_index result k ≤ 1000 }
    {
        let mut prices = [0; 6];
        for price in prices.iter_mut() {
            *price = self.draw(draws);
        }
        prices
    }

    /// How they are called, each kind by its own name.
    pub fn name(self) -> &'static str
        ensures { result.now ≡ name_of self }
    {
        match self {
            Prices::One => "1",
            Prices::Few => "0 to 3",
            Prices::Any => "0 to 1000",
            Prices::MostlyNone => "mostly 0",
        }
    }
}

impl fmt::Display for Prices {
    ghost output = { λ prices. Some (name_of prices) };

    fn fmt<W: fmt::Write>(&self, f: &mut fmt::Formatter<W>) -> fmt::Result {
        f.write_str(self.name())
    }
}
