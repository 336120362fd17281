//! A counter, whose book is the list of the numbers drawn.
ghost use Rattle.std.specs.Prelude.{◌≡◌, true, None, IsSome};
ghost use Rattle.check_gate.specs.Count.{IsCount};

use ut_gate::{Act, Held, Slip};

#[derive(Drop)]
pub struct Counter {
    pub drawn: Vec<u64>,
    pub under_way: Option<u64>,
}

impl Held for Counter {
    type Job = u64;

    type Entry = u64;

    ghost Ground = { Unit {0} };

    ghost ground = { tt };

    ghost stands_on = { λ _ c. IsCount c.drawn.items };

    ghost book = { λ c. c.drawn.items };

    ghost job = { λ c. c.under_way };
}

/// Draws the next number, until it has drawn as many as it wants or there is no memory.
#[derive(Drop)]
pub struct Draw {
    pub wanted: usize,
    pub numbers: Vec<u64>,
}

impl Act<Counter> for Draw {
    ghost use Rattle.check_gate.specs.Count.{DrawsNext};

    type Answer = bool;

    ghost relates = { λ a a' x y s s' answer. DrawsNext answer x.drawn.items y.drawn.items a.numbers.items a'.numbers.items × (y.under_way ≡ x.under_way) };

    ghost asks = { λ _ _. Unit {0} };

    #[tactic(auto, using(ut_gate::proofs::Jobs::job_stays))]
    fn run(&mut self, value: &mut Counter, _slip: &mut Slip<u64>) -> bool {
        if self.numbers.len() >= self.wanted || self.numbers.reserve(1).is_err() {
            return false;
        }
        let number = value.drawn.len() as u64;
        if value.drawn.push(number).is_err() {
            return false;
        }
        self.numbers.push_reserved(number);
        true
    }
}

/// Begins a job, where none is under way.
#[derive(Drop)]
pub struct Begin;

impl Act<Counter> for Begin {
    type Answer = bool;

    ghost relates = { λ _ _ x y s s' answer. answer ≡ true → s'.job ≡ y.under_way };

    ghost asks = { λ _ _. Unit {0} };

    fn run(&mut self, value: &mut Counter, slip: &mut Slip<u64>) -> bool {
        if value.under_way.is_some() {
            return false;
        }
        let job = value.drawn.len() as u64;
        value.under_way = Some(job);
        slip.job = Some(job);
        true
    }
}

/// Ends the job in the slip.
#[derive(Drop)]
pub struct End;

impl Act<Counter> for End {
    type Answer = ();

    ghost relates = { λ _ _ x y s s' _. (x.under_way ≡ s.job) × (y.under_way ≡ None) };

    ghost asks = { λ _ s. IsSome s.job };

    fn run(&mut self, value: &mut Counter, slip: &mut Slip<u64>) {
        value.under_way = None;
        slip.job = None;
    }
}
