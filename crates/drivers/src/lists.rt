// Lists that a driver hands over: the core has no heap, so that each is an array and how many of its places are taken. Each item has a list of its own, since
// an array of a parameter's type is refused. A place that is not taken holds zeros, so that the items alone say what the array is, and a list can be copied.
ghost use Rattle.std.specs.Prelude.{◌≡◌, ◌∷◌, [], ◌++◌, ◌<◌, List, ℕ, length, take};
ghost use Rattle.base.specs.Filled.{Filled, filled_with};
ghost use Rattle.base.proofs.FilledLaws.{given_back, taken};
ghost use Rattle.drivers.specs.declared.LiveFader.{LiveFader};
ghost use Rattle.drivers.specs.Shown.{no_fader};

use crate::LiveFader;
use std::marker::Model;

// The names of a device's scenes.
#[derive(Clone, Copy)]
pub struct Names {
    list: [u16; 128],
    count: usize,
}

impl Model for Names {
    ghost Value = { List ℕ };

    ghost view = { λ n. take n.count n.list };

    ghost invariant = { λ n. Filled 128 0 n.list n.count };

    ghost inverse = { λ xs. record { list = filled_with 128 0 xs; count = length xs } };

    ghost inverse_ok = { λ n h i. record { list = given_back 128 0 n.list n.count h i; count = taken 128 0 n.list n.count h i } };
}

impl Names {
    pub fn none() -> Names
        ensures { result ≡ [] }
    {
        Names {
            list: [0; 128],
            count: 0,
        }
    }

    pub fn as_slice(&self) -> &[u16]
        ensures { result.now ≡ self.now }
    {
        &self.list[..self.count]
    }

    // One more, behind the others.
    pub fn push(&mut self, name: u16)
        requires { length self.old < 128 }
        ensures { self.new ≡ self.old ++ (name ∷ []) }
    {
        self.list[self.count] = name;
        self.count += 1;
    }
}

// The faders that a live bank has right now.
#[derive(Clone, Copy)]
pub struct LiveFaders {
    list: [LiveFader; 32],
    count: usize,
}

impl Model for LiveFaders {
    ghost Value = { List LiveFader };

    ghost view = { λ f. take f.count f.list };

    ghost invariant = { λ f. Filled 32 no_fader f.list f.count };

    ghost inverse = { λ xs. record { list = filled_with 32 no_fader xs; count = length xs } };

    ghost inverse_ok = { λ f h i. record { list = given_back 32 no_fader f.list f.count h i; count = taken 32 no_fader f.list f.count h i } };
}

impl LiveFaders {
    pub fn none() -> LiveFaders
        ensures { result ≡ [] }
    {
        let fader = LiveFader {
            number: 0,
            target: 0,
            label: 0,
            group: 0,
            mute: 0,
        };
        LiveFaders {
            list: [fader; 32],
            count: 0,
        }
    }

    pub fn as_slice(&self) -> &[LiveFader]
        ensures { result.now ≡ self.now }
    {
        &self.list[..self.count]
    }

    // One more, behind the others.
    pub fn push(&mut self, fader: LiveFader)
        requires { length self.old < 32 }
        ensures { self.new ≡ self.old ++ (fader ∷ []) }
    {
        self.list[self.count] = fader;
        self.count += 1;
    }
}
