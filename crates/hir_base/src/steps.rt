//! A count of steps that exists only in contracts: it takes no bytes, and counting does nothing at run time.
ghost use Rattle.std.specs.Prelude.{◌≡◌, ◌+◌, ℕ};

use std::marker::Model;

/// A count of steps, modelled as that number.
///
/// It is for contracts that say how much a call does, as how many ends a search reads. A caller makes a
/// count by `new` and passes it to such a call by `&mut`: the call's contract says what the number is
/// afterwards, and nothing reads it at run time.
#[derive(Drop)]
pub struct Steps {
    ghost count: { ℕ },
}

impl Model for Steps {
    ghost use Rattle.std.specs.Prelude.{ℕ};
    ghost use base.Fml.{ftrue};

    ghost Value = { ℕ };

    ghost view = { λ steps. steps.count };

    ghost also_owns = { λ _. ftrue };
}

impl Steps {
    /// Returns a count of no steps.
    pub fn new() -> Steps
        ensures { result ≡ 0 }
    {
        Steps::none()
    }

    /// Counts a step: the number rises by one.
    pub fn tick(&mut self)
        ensures { self.new ≡ self.old + 1 }
    {
        *self = Steps::after(self);
    }

    // Only these two functions make a count, so their proofs are written by hand.
    fn none() -> Steps
        ensures { result ≡ 0 }
    {
        Steps {}
    }

    fn after(_before: &Steps) -> Steps
        ensures { result ≡ _before.now + 1 }
    {
        Steps {}
    }
}
