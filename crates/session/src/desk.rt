// The desk: marks, last moves, the line of waiting moves, the encoders' sums.
#![tactic(auto, unfolding(crate::specs::Session::is_marked, crate::specs::Session::mark_at, crate::specs::Session::no_marks, crate::specs::Session::last_move, crate::specs::Session::moved_to, crate::specs::Session::unmark_bank, crate::specs::Session::unmark_up_to))]

ghost use Rattle.std.specs.Prelude.{◌≡◌, true, false, [], ◌≤◌, ◌<◌, replicate, take, pos, position};
ghost use Rattle.base.specs.Keyed.{all_of};
ghost use Rattle.lookup.specs.Lookup.{dest_at};
ghost use Rattle.float.specs.Leaf.{f0};
ghost use Rattle.session.specs.Session.{is_marked, mark_at, no_marks, unmark_bank, last_move, moved_to, seen_line, is_channel, move_of, place_move, has_place, is_encoder, wires_to, seen_turns, turn, RoomToTurn};

use crate::{Line, Marks, Move, Moves, Turns};
use lookup::Destination;

impl Marks {
    pub fn none() -> Marks
        ensures { result ≡ no_marks }
    {
        Marks { on: [false; 256] }
    }

    pub fn is_marked(&self, k: usize) -> bool
        requires { k < 256 }
        ensures { result ≡ is_marked k self.now }
    {
        self.on[k]
    }

    pub fn mark(&mut self, k: usize)
        requires { k < 256 }
        ensures { self.new ≡ mark_at k self.old }
    {
        self.on[k] = true;
    }

    // The marks of one bank go, one after another, as the definition has it: a fill of the part is no plainer.
    pub fn unmark(&mut self, bank: u8)
        requires { bank < 16 }
        ensures { self.new ≡ unmark_bank bank self.old }
    {
        let b = usize::from(bank);
        for i in 0..16 {
            self.on[b * 16 + i] = false;
        }
    }
}

impl Moves {
    pub fn none() -> Moves
        ensures { result ≡ record { known = replicate 256 false; level = replicate 256 f0 } }
    {
        Moves {
            known: [false; 256],
            level: [0.0; 256],
        }
    }

    // The last position seen there, if any; past the end there is none.
    pub fn last(&self, k: usize) -> Option<f64>
        ensures { result ≡ last_move k self.now }
    {
        if k < 256 && self.known[k] {
            Some(self.level[k])
        } else {
            None
        }
    }

    pub fn put(&mut self, k: usize, value: f64)
        requires { k < 256 }
        ensures { self.new ≡ moved_to k value self.old }
    {
        self.known[k] = true;
        self.level[k] = value;
    }
}

impl Line {
    pub fn none() -> Line
        ensures { result ≡ record { list = replicate 16 (move_of 0 f0); count = 0 } }
    {
        let m = Move {
            channel: 0,
            level: 0.0,
        };
        Line {
            list: [m; 16],
            count: 0,
        }
    }

    // The moves that wait.
    pub fn moves(&self) -> &[Move]
        requires { self.now.count ≤ 16 }
        ensures { result.now ≡ seen_line self.now }
    {
        &self.list[..self.count]
    }

    // The place of the channel's move, if one waits.
    fn find(&self, channel: u8) -> Option<usize>
        requires { self.now.count ≤ 16 }
        ensures { result ≡ position (is_channel channel) (seen_line self.now) }
    {
        self.moves().iter().position(|m| m.channel == channel)
    }

    // A move takes its channel's place in the line, the end if it has none.
    pub fn place(&mut self, channel: u8, level: f64)
        requires count_bound { self.old.count ≤ 16 }
        requires room { has_place channel (seen_line self.old) ≡ true }
        ensures line_after { seen_line self.new ≡ place_move channel level (seen_line self.old) }
        ensures upper_bound { self.new.count ≤ 16 }
    {
        let m = Move { channel, level };
        match self.find(channel) {
            Some(i) => self.list[i] = m,
            None => {
                self.list[self.count] = m;
                self.count += 1;
            }
        }
    }

    pub fn empty(&mut self)
        ensures line_after { seen_line self.new ≡ [] }
        ensures count_after { self.new.count ≡ 0 }
    {
        self.count = 0;
    }
}

// The place of the destination's sum, if it has one. A destination is named by the profile's record of an encoder that is wired to it.
pub fn find_turn(profile: &[u8], records: &[u16], dest: Destination) -> Option<usize>
    requires { all_of (is_encoder profile.now) records.now ≡ true }
    ensures { result ≡ position (wires_to profile.now dest) records.now }
{
    records.iter().position(|k| lookup::same(
        lookup::destination_at(profile, usize::from(*k)),
        dest,
    ))
}

impl Turns {
    pub fn none() -> Turns
        ensures { result ≡ record { records = replicate 136 0; sums = replicate 136 (pos 0); count = 0 } }
    {
        Turns {
            records: [0; 136],
            sums: [0; 136],
            count: 0,
        }
    }

    // The profile's records of the encoders whose sums wait.
    pub fn records(&self) -> &[u16]
        requires { self.now.count ≤ 136 }
        ensures { result.now ≡ take self.now.count self.now.records }
    {
        &self.records[..self.count]
    }

    // Their sums, side by side with the records.
    pub fn sums(&self) -> &[i32]
        requires { self.now.count ≤ 136 }
        ensures { result.now ≡ take self.now.count self.now.sums }
    {
        &self.sums[..self.count]
    }

    // A turn of record k's encoder adds to its destination's sum; the first comes behind.
    pub fn turn(&mut self, profile: &[u8], k: u16, delta: i32)
        requires { RoomToTurn profile.now self.old.records self.old.sums self.old.count k delta }
        ensures sums_after { seen_turns profile.now self.new ≡ turn (dest_at profile.now k) delta (seen_turns profile.now self.old) }
        ensures records_after { all_of (is_encoder profile.now) (take self.new.count self.new.records) ≡ true }
        ensures upper_bound { self.new.count ≤ 136 }
    {
        let d = lookup::destination_at(profile, usize::from(k));
        match find_turn(profile, self.records(), d) {
            Some(i) => self.sums[i] += delta,
            None => {
                self.records[self.count] = k;
                self.sums[self.count] = delta;
                self.count += 1;
            }
        }
    }

    pub fn empty(&mut self)
        ensures { self.new.count ≡ 0 }
    {
        self.count = 0;
    }
}
