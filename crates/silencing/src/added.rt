// The targets that a press adds to those silenced. The core has no heap, so that they are an array and how many of its places are taken.
// It is a list of its own, as the players of crate transport are: one list for both would be an array of a parameter's type, which is refused.
ghost use Rattle.std.specs.Prelude.{◌≡◌, [], ◌+◌, ◌<◌, ◌≤◌, List, ℕ, length, take};
ghost use Rattle.base.specs.Filled.{Filled, filled_with};
ghost use Rattle.base.proofs.FilledLaws.{given_back, taken};
ghost use Rattle.base.specs.Keyed.{change};
ghost use Rattle.definition.specs.Muting.{is_same};

use std::marker::Model;

// Each target once. The places behind them are zeros, so that the list gives the array back: a copy needs that.
#[derive(Clone, Copy)]
pub struct Added {
    list: [u16; 16],
    count: usize,
}

impl Model for Added {
    ghost Value = { List ℕ };

    ghost view = { λ a. take a.count a.list };

    ghost invariant = { λ a. Filled 16 0 a.list a.count };

    ghost inverse = { λ xs. record { list = filled_with 16 0 xs; count = length xs } };

    ghost inverse_ok = { λ a h i. record { list = given_back 16 0 a.list a.count h i; count = taken 16 0 a.list a.count h i } };
}

impl Added {
    pub fn none() -> Added
        ensures { result ≡ [] }
    {
        Added {
            list: [0; 16],
            count: 0,
        }
    }

    pub fn len(&self) -> usize
        ensures { result ≡ length self.now }
    {
        self.count
    }

    // The target joins the others, unless it is among them.
    pub fn add(&mut self, target: u16)
        requires { length self.old < 16 }
        ensures added { self.new ≡ change (is_same target) (λ x. x) target self.old }
        ensures one_more { length self.new ≤ length self.old + 1 }
    {
        if !self.list[..self.count].contains(&target) {
            self.list[self.count] = target;
            self.count += 1;
        }
    }
}
