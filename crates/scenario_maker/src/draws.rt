//! A stream of numbers: the linear congruential generator of Knuth's MMIX, modulo 2^64, of which the upper 31 bits are used.
ghost use Rattle.std.specs.Prelude.{◌≡◌, ◌<◌};
ghost use Rattle.scenario_maker.specs.Draws.{behind, drawn};

/// The factor and the summand of the generator (Knuth, The Art of Computer Programming 2; MMIX).
const FACTOR: u128 = 6_364_136_223_846_793_005;

const SUMMAND: u128 = 1_442_695_040_888_963_407;

/// A stream of numbers, by the last number of the generator.
#[derive(Drop)]
pub(crate) struct Draws {
    pub last: u64,
}

impl Draws {
    /// The next number, below this bound.
    pub fn draw(&mut self, bound: u8) -> u8
        requires { 0 < bound }
        ensures number { result ≡ drawn self.old.last bound }
        ensures below { result < bound }
        ensures last { self.new.last ≡ behind self.old.last }
    {
        let next = (u128::from(self.last) * FACTOR + SUMMAND) % (1 << 64);
        self.last = next as u64;
        ((self.last >> 33) % u64::from(bound)) as u8
    }
}
