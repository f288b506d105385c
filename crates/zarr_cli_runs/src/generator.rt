//! The generator of numbers.

ghost use Rattle.std.specs.Prelude.{◌≡◌, ◌<◌};
ghost use Rattle.zarr_cli_runs.specs.Generator.{first_state, next_state, drawn};
ghost use Rattle.zarr_cli_runs.specs.MadeCommands.{draw_below};

const FACTOR: u64 = 1_103_515_245;

const ADDEND: u64 = 12_345;

const MODULUS: u64 = 1 << 31;

/// A generator of numbers: the same numbers for the same beginning.
#[derive(Clone, Copy, Debug, PartialEq, Eq)]
pub struct Generator {
    state: u32,
}

impl Generator {
    /// The generator that begins with a number, of which the low 31 bits count.
    #[tactic(auto, unfolding(crate::specs::Generator::first_state))]
    pub fn new(number: u64) -> Self
        ensures { result.state ≡ first_state number }
    {
        Generator {
            state: (number % MODULUS) as u32,
        }
    }

    /// The next number, below 2^15.
    #[tactic(auto, unfolding(crate::specs::Generator::next_state, crate::specs::Generator::drawn))]
    pub fn draw(&mut self) -> u64
        ensures value { result ≡ drawn (next_state self.old.state) }
        ensures state { self.new.state ≡ next_state self.old.state }
    {
        self.state = ((FACTOR * u64::from(self.state) + ADDEND) % MODULUS) as u32;
        u64::from(self.state) / 65_536
    }

    /// The next number modulo `limit`.
    pub fn draw_below(&mut self, limit: u64) -> u64
        requires { 0 < limit }
        ensures value { result ≡ draw_below limit self.old.state }
        ensures below { result < limit }
        ensures state { self.new.state ≡ next_state self.old.state }
    {
        self.draw() % limit
    }
}
