// What is written of an event.
ghost use Rattle.std.specs.Prelude.{◌≤◌, length};
ghost use Rattle.delivery.specs.Delivery.{told};
ghost use Rattle.bridge.specs.Bridge.{Few};

use delivery::Outcome;
use printing::{Calls, Counts, Messages, Printed, Refused, Step, Waiting};

// What became of event n, with the messages and the calls of a done one. There are at most 102 messages and 337 calls.
pub(crate) fn show(n: usize, outcome: Outcome, messages: &[u8], calls: &[u8])
    requires few { Few (told outcome) }
    requires messages_in_bounds { 306 ≤ length messages.now }
    requires calls_in_bounds { 5392 ≤ length calls.now }
{
    let step = Step { what: "event", n };
    match outcome {
        Outcome::Done {
            messages: sent,
            calls: asked,
            used,
            saved,
        } => {
            let counts = Printed(Counts {
                messages: sent,
                calls: asked,
            });
            let step = Printed(step);
            let saved = u8::from(saved);
            let sent = Printed(Messages(&messages[..3 * sent]));
            let asked = Printed(Calls(&calls[..16 * asked]));
            crate::show(format_args!("{step}{counts} used {used} saved {saved}\n{sent}{asked}"));
        }
        Outcome::Refused(cause) => {
            let why = cause.number();
            crate::show(Printed(Refused { step, why }));
        }
        Outcome::Waiting(call) => crate::show(Printed(Waiting { n, call })),
    }
}
