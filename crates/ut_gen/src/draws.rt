//! Numbers drawn by a linear congruence: Knuth's MMIX multiplier, of whose state the high bits are given.
ghost use Rattle.std.specs.Prelude.{◌≡◌, ◌<◌, ◌+◌, ◌*◌, ◌%◌, ◌^◌};
ghost use Rattle.ut_gen.specs.Draws.{advanced, draw, IsJump};

/// The bits of the state that a draw leaves out.
const LOW_BITS: u32 = 33;

/// The map of a state x to `x * factor + term`, modulo 2^64.
#[derive(Clone, Copy)]
struct Affine {
    factor: u64,
    term: u64,
}

const NO_DRAW: Affine = Affine { factor: 1, term: 0 };

const ONE_DRAW: Affine = Affine {
    factor: 6364136223846793005,
    term: 1442695040888963407,
};

/// What draws numbers: a state of 64 bits.
#[derive(Clone, Copy)]
pub(crate) struct Draws {
    pub state: u64,
}

impl Draws {
    /// The draws of a seed, behind the first so many of them. It takes time by the logarithm of their number.
    pub fn behind(seed: u64, draws: u32) -> Draws
        ensures { result.state ≡ advanced seed draws }
    {
        Draws {
            state: jump(draws).apply(seed),
        }
    }

    /// Draws the next number, modulo a bound.
    #[tactic(auto, unfolding(crate::specs::Draws::stepped, crate::specs::Draws::advanced))]
    pub fn below(&mut self, bound: u32) -> u32
        requires { 0 < bound }
        ensures number { result ≡ draw self.old.state 0 % bound }
        ensures state { self.new.state ≡ advanced self.old.state 1 }
    {
        self.state = ONE_DRAW.apply(self.state);
        (self.state >> LOW_BITS) as u32 % bound
    }
}

// The map of so many draws.
fn jump(draws: u32) -> Affine
    ensures { IsJump draws result.factor result.term }
{
    if draws == 0 {
        return NO_DRAW;
    }
    let half = jump(draws / 2);
    let even = half.then(half);
    if draws % 2 == 0 {
        even
    } else {
        even.then(ONE_DRAW)
    }
}

impl Affine {
    fn apply(self, x: u64) -> u64
        ensures { result ≡ (x * self.factor + self.term) % 2 ^ 64 }
    {
        x.wrapping_mul(self.factor).wrapping_add(self.term)
    }

    // This map, and then another.
    fn then(self, next: Affine) -> Affine
        ensures factor { result.factor ≡ (self.factor * next.factor) % 2 ^ 64 }
        ensures term { result.term ≡ (self.term * next.factor + next.term) % 2 ^ 64 }
    {
        Affine {
            factor: self.factor.wrapping_mul(next.factor),
            term: self.term.wrapping_mul(next.factor).wrapping_add(next.term),
        }
    }
}
