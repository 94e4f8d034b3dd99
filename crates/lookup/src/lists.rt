// Short lists: the core has no heap, so that each is an array and how many of its places are taken. Each item has a list of its own, since an array of a
// parameter's type is refused.
ghost use Rattle.std.specs.Prelude.{◌≡◌, ◌∷◌, [], ◌++◌, ◌<◌, ◌≤◌, List, ℕ, length, take};
ghost use Rattle.base.specs.Filled.{Filled, filled_with};
ghost use Rattle.base.proofs.FilledLaws.{given_back, taken};
ghost use Rattle.lookup.specs.declared.Entry.{Entry};
ghost use Rattle.lookup.specs.Lookup.{place};

use crate::{Command, Entry};
use std::marker::Model;

// The transport buttons that have a lamp, each of another kind.
#[derive(Drop)]
pub struct Buttons {
    list: [Entry; 32],
    count: usize,
}

impl Model for Buttons {
    ghost Value = { List Entry };

    ghost view = { λ b. take b.count b.list };

    ghost invariant = { λ b. b.count ≤ 32 };
}

impl Buttons {
    pub fn none() -> Buttons
        ensures { result ≡ [] }
    {
        let command = Command {
            driver: 0,
            target: 0,
            command: 0,
        };
        Buttons {
            list: [Entry { kind: 0, command }; 32],
            count: 0,
        }
    }

    pub fn as_slice(&self) -> &[Entry]
        ensures { result.now ≡ self.now }
    {
        &self.list[..self.count]
    }

    // One more, behind the others.
    pub fn push(&mut self, button: Entry)
        requires { length self.old < 32 }
        ensures { self.new ≡ self.old ++ (button ∷ []) }
    {
        self.list[self.count] = button;
        self.count += 1;
    }

    // It replaces the first of its kind, or comes behind.
    pub fn put(&mut self, button: Entry)
        requires { length self.old < 32 }
        ensures { self.new ≡ place button self.old }
    {
        let kind = button.kind;
        let there = self.as_slice().iter().position(|b| b.kind == kind);
        match there {
            Some(i) => self.list[i] = button,
            None => self.push(button),
        }
    }
}

// The drivers of some faders, in the faders' order. The places behind them are zeros, so that the list gives the array back: a copy needs that.
#[derive(Clone, Copy)]
pub struct Drivers {
    list: [u8; 16],
    count: usize,
}

impl Model for Drivers {
    ghost Value = { List ℕ };

    ghost view = { λ d. take d.count d.list };

    ghost invariant = { λ d. Filled 16 0 d.list d.count };

    ghost inverse = { λ xs. record { list = filled_with 16 0 xs; count = length xs } };

    ghost inverse_ok = { λ d h i. record { list = given_back 16 0 d.list d.count h i; count = taken 16 0 d.list d.count h i } };
}

impl Drivers {
    pub fn none() -> Drivers
        ensures { result ≡ [] }
    {
        Drivers {
            list: [0; 16],
            count: 0,
        }
    }

    pub fn as_slice(&self) -> &[u8]
        ensures { result.now ≡ self.now }
    {
        &self.list[..self.count]
    }

    // One more, behind the others.
    pub fn push(&mut self, driver: u8)
        requires { length self.old < 16 }
        ensures { self.new ≡ self.old ++ (driver ∷ []) }
    {
        self.list[self.count] = driver;
        self.count += 1;
    }
}
