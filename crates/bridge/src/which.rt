// Which event it is.
ghost use Rattle.std.specs.Prelude.{◌≡◌};
ghost use Rattle.bridge.specs.Which.{hand_of, press_in, is_tick, is_nothing};

use event::Input;
use protocol::{Button, Event};

// What a hand moved on the surface: a fader or an encoder. These are two variants of the protocol's event, named again: here the event's cases are told apart
// once, so that the facts of both hands stand in two laws.
#[derive(Clone, Copy)]
pub enum Hand {
    Fader { channel: u8, value: f64 },
    Encoder { channel: u8, delta: i32 },
}

pub fn hand_of(what: Input) -> Option<Hand>
    ensures { result ≡ hand_of what }
{
    match what {
        Input::Midi(Event::Fader { channel, value }) => Some(Hand::Fader { channel, value }),
        Input::Midi(Event::Encoder { channel, delta }) => Some(Hand::Encoder { channel, delta }),
        _ => None,
    }
}

// The button that the event presses, if it does.
pub fn press_of(what: Input) -> Option<Button>
    ensures { result ≡ press_in what }
{
    match what {
        Input::Midi(Event::Button(b)) if b.pressed => Some(b),
        _ => None,
    }
}

pub fn is_tick(what: Input) -> bool
    ensures { result ≡ is_tick what }
{
    matches!(what, Input::Tick)
}

// A MIDI message that does nothing: no button pressed, or none of ours.
pub fn is_nothing(what: Input) -> bool
    ensures { result ≡ is_nothing what }
{
    match what {
        Input::Midi(Event::Button(b)) => !b.pressed,
        Input::Midi(Event::Other) => true,
        _ => false,
    }
}
