#![tactic(auto)]

// How an event ends. It runs on scratch buffers; one that stopped is thrown away whole, and only a finished one's messages and calls are delivered to the
// lent memory.
mod refusal;

ghost use Rattle.std.specs.Prelude.{ℕ, ◌≡◌, ◌*◌, ◌≤◌, ◌<◌, length, get_or, take};
ghost use Rattle.base.specs.Tail.{at_front};
ghost use Rattle.delivery.specs.Delivery.{told, told_done, HasRoom, Ends};

use drivers::{Call, Io, Stop};
pub use refusal::Refusal;

// Document 01's outcome: done with its counts, refused with the cause, or waiting for the answer to a call.
#[derive(Clone, Copy)]
pub enum Outcome {
    Done {
        messages: usize,
        calls: usize,
        used: usize,
        saved: bool,
    },
    Refused(Refusal),
    Waiting(Call),
}

impl Outcome {
    pub fn is_done(&self) -> bool
        ensures { result ≡ told_done (told self.now) }
    {
        matches!(self, Outcome::Done { .. })
    }
}

// Copies the first n to the front of the lent memory. What is copied from is bytes, which a reader of records needs to know.
#[tactic(auto, unfolding(base::specs::Tail::at_front))]
fn put(from: &[u8], n: usize, to: &mut [u8])
    requires from_bound { n ≤ length from.now }
    requires to_bound { n ≤ length to.old }
    ensures copied { to.new ≡ at_front (take n from.now) to.old }
    ensures bytes { (j : ℕ) → get_or from.now j 0 < 256 }
{
    to[..n].copy_from_slice(&from[..n]);
}

// How an event ends whose line is this one.
pub fn ending(io: &Io<'_>, messages: &mut [u8], calls: &mut [u8], saved: bool) -> Outcome
    requires in_bounds { 306 ≤ length messages.old }
    requires in_bounds_2 { 5392 ≤ length calls.old }
    requires has_room { HasRoom io.now }
    ensures { Ends io.now saved result messages.old calls.old messages.new calls.new }
{
    match io.stop {
        Stop::Going => {
            put(&io.messages, 3 * io.sent, messages);
            put(&io.calls, 16 * io.asked, calls);
            Outcome::Done {
                messages: io.sent,
                calls: io.asked,
                used: io.read / 16,
                saved,
            }
        }
        Stop::Waits(call) => Outcome::Waiting(call),
        Stop::Declined | Stop::Overrun => Outcome::Refused(Refusal::Answer),
    }
}
