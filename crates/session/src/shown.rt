// What the lamps show beside levels and mutes: solo, scenes and the flash.
#![tactic(auto, unfolding(crate::specs::Session::no_flash, crate::specs::Session::none_lit, crate::specs::Session::was_muted, crate::specs::Session::note_muted, crate::specs::Session::none_noted, crate::specs::Session::solo_to, crate::specs::Session::loaded_by, crate::specs::Session::scene_at, crate::specs::Session::scene_to, crate::specs::Session::scene_unknown, crate::specs::Session::flashing))]

ghost use Rattle.std.specs.Prelude.{◌≡◌, ◌≤◌, ◌<◌};
ghost use Rattle.session.specs.Session.{no_flash, none_lit, was_muted, note_muted, none_noted, solo_to, loaded_by, scene_at, scene_to, scene_unknown, flashing};

use crate::{Flash, Lamps};

impl Flash {
    pub fn none() -> Flash
        ensures { result ≡ no_flash }
    {
        Flash {
            on: false,
            start: 0.0,
            row: 0,
            base: 0,
            column: 0,
            sent: 0,
        }
    }
}

impl Lamps {
    pub fn none() -> Lamps
        ensures { result ≡ none_lit }
    {
        Lamps {
            soloed: 0,
            loaded: 0,
            before: [false; 16],
            known: [false; 16],
            scenes: [0; 16],
            flash: Flash::none(),
        }
    }

    // ── solo ──

    // Whether fader number, from 1, was muted before the solo.
    pub fn was_muted(&self, number: u8) -> bool
        requires { (1 ≤ number) × (number ≤ 16) }
        ensures { result ≡ was_muted number self.now }
    {
        self.before[usize::from(number) - 1]
    }

    pub fn note_muted(&mut self, number: u8, muted: bool)
        requires { (1 ≤ number) × (number ≤ 16) }
        ensures { self.new ≡ note_muted number muted self.old }
    {
        self.before[usize::from(number) - 1] = muted;
    }

    pub fn none_noted(&mut self)
        ensures { self.new ≡ none_noted self.old }
    {
        self.before = [false; 16];
    }

    // The fader is soloed; 0 is none.
    pub fn solo_to(&mut self, fader: u8)
        ensures { self.new ≡ solo_to fader self.old }
    {
        self.soloed = fader;
    }

    // ── scenes ──

    pub fn loaded_by(&mut self, fader: u8)
        ensures { self.new ≡ loaded_by fader self.old }
    {
        self.loaded = fader;
    }

    // Where the bank's device is in its scene list, if that is known.
    pub fn scene_at(&self, bank: u8) -> Option<usize>
        requires { bank < 16 }
        ensures { result ≡ scene_at bank self.now }
    {
        let b = usize::from(bank);
        self.known[b].then_some(self.scenes[b] as usize)
    }

    pub fn scene_to(&mut self, bank: u8, i: u32)
        requires { bank < 16 }
        ensures { self.new ≡ scene_to bank i self.old }
    {
        let b = usize::from(bank);
        self.known[b] = true;
        self.scenes[b] = i;
    }

    pub fn scene_unknown(&mut self, bank: u8)
        requires { bank < 16 }
        ensures { self.new ≡ scene_unknown bank self.old }
    {
        self.known[usize::from(bank)] = false;
    }

    // ── the flash ──

    pub fn flashing(&mut self, flash: Flash)
        ensures { self.new ≡ flashing flash self.old }
    {
        self.flash = flash;
    }
}
