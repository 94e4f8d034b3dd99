#![tactic(auto)]

// What the operator's hands do: a move of a fader (`faders`), a turn of an encoder and the drain (`encoders`).
pub mod encoders;
pub mod faders;

// What a move does: nothing, it is held, or it takes over and waits.
#[derive(Clone, Copy)]
pub enum Verdict {
    Ignored,
    Held,
    Taken,
}
