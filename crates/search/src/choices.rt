//! Choices that look random and are the same at each run.

ghost use Rattle.std.specs.Prelude.{◌<◌, ℕ, All};

/// A source of choices: a linear congruence.
#[derive(Drop)]
pub struct Choices {
    state: u64,
}

impl Choices {
    /// The choices that begin with a number.
    pub fn new(seed: usize) -> Choices {
        Choices {
            state: 88_172_645_463_325_252_u64.wrapping_add(seed as u64),
        }
    }

    /// A number below `count`.
    pub fn below(&mut self, count: usize) -> usize
        requires { 0 < count }
        ensures { result < count }
    {
        self.state = self
            .state
            .wrapping_mul(6_364_136_223_846_793_005)
            .wrapping_add(1_442_695_040_888_963_407);
        (self.state >> 33) as usize % count
    }

    /// Puts the items in another order.
    pub fn shuffle(&mut self, items: &mut [usize])
        ensures { (n : ℕ) → All (λ m. m < n) items.old → All (λ m. m < n) items.new }
    {
        for i in 1..items.len() {
            let j = self.below(i + 1);
            items.swap(i, j);
        }
    }
}
