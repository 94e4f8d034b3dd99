// The answer that stands first in a part of the answers, and whether it fits the call.
ghost use Rattle.std.specs.Prelude.{◌≡◌, cond, false, ◌+◌, ◌*◌, ◌/◌, ◌<◌, ◌≤◌, length, get_or};
ghost use Rattle.base.specs.Range.{all};
ghost use Rattle.drivers.specs.Answers.{item_fits, live_fits, scene_list, live_list, yes_no, to_read, to_playing, to_scenes, to_current, to_live, to_other, answer_of, is_unfit, is_done, is_yes_no, is_list, number_of, Carries};

use crate::{Answer, Kind};

// ── lists ──

// Item i, counted from 0 behind its list's own record, is one, and its name is there. Items go by their number, as the definitions have them: two that follow each
// other are compared, and chunks would lose the one before.
fn item_fits(part: &[u8], i: usize) -> bool
    requires { i + 1 < length part.now / 16 }
    ensures { result ≡ item_fits part.now i }
{
    let at = 16 * i + 16;
    (part[at] == 7) & (base::read_u16(part, at + 2) != 65535)
}

// In a live item only the mute may be absent, and the numbers rise.
fn live_fits(part: &[u8], i: usize) -> bool
    requires { i + 1 < length part.now / 16 }
    ensures { result ≡ live_fits part.now i }
{
    let at = 16 * i + 16;
    item_fits(part, i)
        & ((base::read_u16(part, at + 4) != 65535)
            & ((base::read_u16(part, at + 6) != 65535)
                & ((i == 0) | (part[16 * i + 1] < part[16 * i + 17]))))
}

fn fits(part: &[u8], i: usize, live: bool) -> bool
    requires { i + 1 < length part.now / 16 }
    ensures { result ≡ cond live (live_fits part.now i) (item_fits part.now i) }
{
    if live {
        live_fits(part, i)
    } else {
        item_fits(part, i)
    }
}

fn all_fit(part: &[u8], count: usize, live: bool) -> bool
    requires { count < length part.now / 16 }
    ensures { result ≡ cond live (all count (live_fits part.now)) (all count (item_fits part.now)) }
{
    (0..count).all(|i| fits(part, i, live))
}

// A list fits if it has no more items than it may have, all of them are there, and each of them fits.
#[tactic(auto, unfolding(crate::specs::Answers::scene_list, crate::specs::Answers::live_list))]
fn list(part: &[u8], live: bool) -> Answer
    requires { 16 ≤ length part.now }
    ensures { result ≡ cond live (live_list part.now) (scene_list part.now) }
{
    let count = usize::from(base::read_u16(part, 2));
    let most = if live { 32 } else { 128 };
    if (most < count) | (part.len() / 16 <= count) {
        return Answer::Unfit;
    }
    if all_fit(part, count, live) {
        Answer::List
    } else {
        Answer::Unfit
    }
}

// ── one record, of kind k, to each kind of call ──

// k is document 01's number, or a byte that is none: an enum would be matched here once more, and be no plainer.

#[tactic(auto, unfolding(crate::specs::Answers::yes_no))]
fn yes_no(b: u8) -> Answer
    ensures { result ≡ yes_no b }
{
    match b {
        0 => Answer::YesNo(false),
        1 => Answer::YesNo(true),
        _ => Answer::Unfit,
    }
}

#[tactic(auto, unfolding(crate::specs::Answers::to_read))]
fn to_read(part: &[u8], k: u8) -> Answer
    requires { 16 ≤ length part.now }
    ensures { result ≡ to_read k part.now }
{
    match k {
        2 => Answer::Level(float::read_f64(part, 8)),
        3 => Answer::Nothing,
        _ => Answer::Unfit,
    }
}

#[tactic(auto, unfolding(crate::specs::Answers::to_playing))]
fn to_playing(part: &[u8], k: u8) -> Answer
    requires { 16 ≤ length part.now }
    ensures { result ≡ to_playing k part.now }
{
    match k {
        4 => yes_no(part[1]),
        3 => Answer::Nothing,
        _ => Answer::Unfit,
    }
}

#[tactic(auto, unfolding(crate::specs::Answers::to_scenes))]
fn to_scenes(part: &[u8], k: u8) -> Answer
    requires { 16 ≤ length part.now }
    ensures { result ≡ to_scenes k part.now }
{
    match k {
        6 => list(part, false),
        _ => Answer::Unfit,
    }
}

#[tactic(auto, unfolding(crate::specs::Answers::to_current))]
fn to_current(part: &[u8], k: u8) -> Answer
    requires { 16 ≤ length part.now }
    ensures { result ≡ to_current k part.now }
{
    match k {
        5 => Answer::Index(base::read_u32(part, 4)),
        3 => Answer::Nothing,
        _ => Answer::Unfit,
    }
}

#[tactic(auto, unfolding(crate::specs::Answers::to_live))]
fn to_live(part: &[u8], k: u8) -> Answer
    requires { 16 ≤ length part.now }
    ensures { result ≡ to_live k part.now }
{
    match k {
        6 => list(part, true),
        _ => Answer::Unfit,
    }
}

// To an open, a write, a toggle, a command or a load.
#[tactic(auto, unfolding(crate::specs::Answers::to_other))]
fn to_other(k: u8) -> Answer
    ensures { result ≡ to_other k }
{
    match k {
        1 => Answer::Done,
        _ => Answer::Unfit,
    }
}

// The answer that stands first in the part, to a call of the kind: any byte, as the definition has it, since a narrower type would ask more of callers.
#[tactic(auto, unfolding(crate::specs::Answers::answer_of))]
pub fn first(part: &[u8], kind: u8) -> Answer
    ensures value { result ≡ answer_of part.now kind }
    ensures number { is_unfit result ≡ false → number_of result ≡ get_or part.now 0 0 }
    ensures values { Carries part.now result }
{
    if part.len() < 16 {
        return Answer::Unfit;
    }
    let k = part[0];
    if k == 0 {
        return Answer::Refused;
    }
    // One match over the kind: a table of functions would be no plainer.
    match Kind::try_from(kind) {
        Ok(Kind::Read) => to_read(part, k),
        Ok(Kind::Playing) => to_playing(part, k),
        Ok(Kind::Scenes) => to_scenes(part, k),
        Ok(Kind::Current) => to_current(part, k),
        Ok(Kind::Live) => to_live(part, k),
        _ => to_other(k),
    }
}

// ── which case an answer is ──

impl Answer {
    pub fn is_unfit(&self) -> bool
        ensures { result ≡ is_unfit self.now }
    {
        matches!(self, Answer::Unfit)
    }

    pub fn is_done(&self) -> bool
        ensures { result ≡ is_done self.now }
    {
        matches!(self, Answer::Done)
    }

    pub fn is_yes_no(&self) -> bool
        ensures { result ≡ is_yes_no self.now }
    {
        matches!(self, Answer::YesNo(_))
    }

    pub fn is_list(&self) -> bool
        ensures { result ≡ is_list self.now }
    {
        matches!(self, Answer::List)
    }
}
