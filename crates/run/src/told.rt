// What is written of an event.
ghost use Rattle.delivery.specs.Delivery.{told as told_by};
ghost use Rattle.bridge.specs.Bridge.{Few};
ghost use Rattle.run.specs.FewLaws.{few_prop};
ghost use Rattle.run.specs.Said.{outcome_text};

use delivery::Outcome;
use printing::{Calls, Counts, Messages, Refused, Sink, Step, Text, Waiting};

// What became of event n, with the messages and the calls of a done one. There are at most 102 messages and 337 calls.
#[derive(Drop)]
pub struct Told {
    pub n: usize,
    pub outcome: Outcome,
    pub messages: [u8; 306],
    pub calls: [u8; 5392],
    ghost few: { Few (told_by outcome) } by { few_prop (told_by outcome) },
}

impl Text for Told {
    ghost text = { λ t. outcome_text t.n (told_by t.outcome) t.messages t.calls };

    fn put<S: Sink>(&self, out: &mut S) {
        let n = self.n;
        let step = Step { what: "event", n };
        match self.outcome {
            Outcome::Done {
                messages,
                calls,
                ..
            } => {
                step.put(out);
                Counts { messages, calls }.put(out);
                "\n".put(out);
                Messages(&self.messages[..3 * messages]).put(out);
                Calls(&self.calls[..16 * calls]).put(out);
            }
            Outcome::Refused(cause) => {
                let why = cause.number();
                Refused { step, why }.put(out);
            }
            Outcome::Waiting(call) => Waiting { n, call }.put(out),
        }
    }
}
