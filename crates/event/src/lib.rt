#![tactic(auto)]

// An event of the host with its time: the record of sixteen bytes, read.
ghost use Rattle.std.specs.Prelude.{◌≡◌, ◌≤◌, true, length, get_or, IfSome};
ghost use Rattle.event.specs.Event.{event_ok, input_of, read_of, number_of, Carries};

use protocol::Event;

#[derive(Clone, Copy)]
pub enum Input {
    Midi(Event),
    Tick,
    PushState,
    PushTransport,
    FlashBank,
}

// An event with its time is one record.
#[derive(Clone, Copy)]
pub struct Timed {
    pub time: f64,
    pub what: Input,
}

// The record is whole, and its kind and length are known. The length is checked for every kind.
#[tactic(auto, unfolding(crate::specs::Event::event_ok))]
fn event_ok(event: &[u8]) -> bool
    ensures value { result ≡ event_ok event.now }
    ensures whole { result ≡ true → 16 ≤ length event.now }
    ensures short { result ≡ true → get_or event.now 1 0 ≤ 3 }
{
    event.len() >= 16 && matches!(event[0], 1..=5) && event[1] <= 3
}

#[tactic(auto, unfolding(crate::specs::Event::input_of))]
fn said(event: &[u8]) -> Input
    requires { (16 ≤ length event.now) × (get_or event.now 1 0 ≤ 3) }
    ensures { result ≡ input_of event.now }
{
    match event[0] {
        1 => Input::Midi(protocol::decode(&event[2..event[1] as usize + 2])),
        2 => Input::Tick,
        3 => Input::PushState,
        4 => Input::PushTransport,
        _ => Input::FlashBank,
    }
}

#[tactic(auto, using(crate::proofs::Numbers::numbered, crate::proofs::Numbers::carried), unfolding(crate::specs::Event::read_of))]
pub fn read_event(event: &[u8]) -> Option<Timed>
    ensures value { result ≡ read_of event.now }
    ensures number { IfSome result (λ e. number_of e.what ≡ get_or event.now 0 0) }
    ensures values { IfSome result (λ e. Carries event.now e.what) }
{
    if !event_ok(event) {
        return None;
    }
    Some(Timed {
        time: float::read_f64(event, 8),
        what: said(event),
    })
}
