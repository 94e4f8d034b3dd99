// The levels of targets that were silenced without a mute: the first of two arrays, side by side. They are kept by target alone; an absent target counts
// as 0.
ghost use Rattle.std.specs.Prelude.{◌≡◌, true, ◌≤◌, replicate, take, position};
ghost use Rattle.float.specs.Leaf.{f0};
ghost use Rattle.session.specs.Session.{seen_silenced, targets_of, same_target, is_silenced, level_before, insert_level, remove_level, has_room};

use crate::Silenced;

// The target is one of those silenced.
pub fn is_silenced(silenced_targets: &[u16], target: u16) -> bool
    ensures { result ≡ is_silenced target silenced_targets.now }
{
    silenced_targets.contains(&target)
}

impl Silenced {
    pub fn none() -> Silenced
        ensures { result ≡ record { targets = replicate 256 0; levels = replicate 256 f0; count = 0 } }
    {
        Silenced {
            targets: [0; 256],
            levels: [0.0; 256],
            count: 0,
        }
    }

    // The targets alone: what the lamps need to know. The count is asked for: C hands `Silenced` on, and may hand any count.
    pub fn targets(&self) -> &[u16]
        requires { self.now.count ≤ 256 }
        ensures kept { result.now ≡ take self.now.count self.now.targets }
        ensures seen { result.now ≡ targets_of (seen_silenced self.now) }
    {
        // Lent as a slice, the levels are known to have all their places: each of the targets has one.
        let _levels: &[f64] = &self.levels;
        &self.targets[..self.count]
    }

    // The target's place, if it is silenced.
    fn find(&self, target: u16) -> Option<usize>
        requires { self.now.count ≤ 256 }
        ensures { result ≡ position (same_target target) (take self.now.count self.now.targets) }
    {
        self.targets().iter().position(|t| *t == target)
    }

    // The level kept for the target, if it is silenced.
    pub fn level(&self, target: u16) -> Option<f64>
        requires { self.now.count ≤ 256 }
        ensures { result ≡ level_before target (seen_silenced self.now) }
    {
        let i = self.find(target)?;
        Some(self.levels[i])
    }

    // The target's level is kept, in its place or behind the others.
    pub fn insert_level(&mut self, target: u16, level: f64)
        requires count_bound { self.old.count ≤ 256 }
        requires room { has_room target (take self.old.count self.old.targets) ≡ true }
        ensures levels_after { seen_silenced self.new ≡ insert_level target level (seen_silenced self.old) }
        ensures upper_bound { self.new.count ≤ 256 }
    {
        let i = self.find(target).unwrap_or(self.count);
        self.targets[i] = target;
        self.levels[i] = level;
        self.count = self.count.max(i + 1);
    }

    // The target's level is kept no more, and the others close up. The loop counts by hand: two arrays, side by side, close up in place.
    pub fn remove_level(&mut self, target: u16)
        requires { self.old.count ≤ 256 }
        ensures levels_after { seen_silenced self.new ≡ remove_level target (seen_silenced self.old) }
        ensures upper_bound { self.new.count ≤ 256 }
    {
        let mut kept = 0;
        for i in 0..self.count {
            if self.targets[i] != target {
                self.targets[kept] = self.targets[i];
                self.levels[kept] = self.levels[i];
                kept += 1;
            }
        }
        self.count = kept;
    }
}
