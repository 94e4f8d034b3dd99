#![tactic(auto)]

// The program of document 01: profile.bin, events.bin and answers.bin, the first 65,536 bytes of each, and what becomes of each event.
//
// What is handed over is proved to be the definition's text of what was read (`specs/Said`, `program_text`). That the system reads and writes so is not.
mod files;
mod told;

ghost use Rattle.std.specs.Prelude.{◌*◌, ◌≤◌, ◌≡◌, true, cond, length, Some, None, IfSome};
ghost use Rattle.std.specs.Fmt.{WritesInCalls};
ghost use Rattle.definition.specs.Shape.{well_shaped};
ghost use Rattle.definition.specs.Step.{seen, fresh_kept};
ghost use Rattle.delivery.specs.Delivery.{told as told_by, told_done};
ghost use Rattle.bridge.specs.Bridge.{used_in};
ghost use Rattle.run.specs.Said.{event_text, became, goes_on, records, events_text, program_text};
ghost use Rattle.profile.specs.Profile.{verdict};

use delivery::Outcome;
use printing::{Held, ProfileRefused, Sink, System, Text};
use session::Session;
use told::Told;

// What one event came to: the session behind it, and how many answers it used where the next event may follow.
#[derive(Clone, Copy)]
struct Next {
    session: Session,
    used: Option<usize>,
}

// How many answers a done event used. A refused or a waiting one is the end.
fn used_by(outcome: Outcome) -> Option<usize>
    ensures { result ≡ cond (told_done (told_by outcome)) (Some (used_in (told_by outcome))) None }
{
    match outcome {
        Outcome::Done { used, .. } => Some(used),
        Outcome::Refused(_) | Outcome::Waiting(_) => None,
    }
}

// Runs event n, and says what became of it.
fn one<S: Sink>(
    out: &mut S,
    n: usize,
    session: Session,
    profile: &[u8],
    event: &[u8],
    answers: &[u8],
) -> Next
    requires verdict_value { verdict profile.now ≡ 0 }
    requires shaped { well_shaped profile.now session ≡ true }
    ensures out_after { WritesInCalls S.takes out.old (event_text n (became profile.now (seen profile.now session) event.now answers.now).ended) out.new }
    ensures session_value { seen profile.now result.session ≡ (became profile.now (seen profile.now session) event.now answers.now).kept }
    ensures still_shaped { well_shaped profile.now result.session ≡ true }
    ensures used_value { result.used ≡ goes_on (became profile.now (seen profile.now session) event.now answers.now).ended }
    ensures used_in_bounds { IfSome result.used (λ used. 16 * used ≤ length answers.now) }
{
    let mut messages = [0u8; 306];
    let mut calls = [0u8; 5392];
    let r = bridge::step(session, profile, event, answers, &mut messages, &mut calls);
    let outcome = r.outcome;
    let told = Told {
        n,
        outcome,
        messages,
        calls,
    };
    told.put(out);
    Next {
        session: r.session,
        used: used_by(outcome),
    }
}

// Runs the events in turn, each on the answers that those before it left. The last event may be incomplete.
fn all<S: Sink>(out: &mut S, profile: &[u8], events: &[u8], answers: &[u8])
    requires verdict_value { verdict profile.now ≡ 0 }
    ensures { WritesInCalls S.takes out.old (events_text profile.now fresh_kept 0 (records events.now) answers.now) out.new }
{
    let mut session = session::fresh();
    let mut left = answers;
    for (n, event) in events.chunks(16).enumerate() {
        let next = one(out, n, session, profile, event, left);
        let Some(used) = next.used else {
            return;
        };
        session = next.session;
        left = &left[16 * used..];
    }
}

// The program, of what was read of each file.
fn whole<S: Sink>(out: &mut S, profile: &[u8], events: &[u8], answers: &[u8])
    ensures { WritesInCalls S.takes out.old (program_text profile.now events.now answers.now) out.new }
{
    match profile::examine(profile) {
        Ok(()) => all(out, profile, events, answers),
        Err(cause) => ProfileRefused(cause.number()).put(out),
    }
}

// The program over a sink, which is handed all of the text, in order, and nothing else: the sink behind it is given back.
fn handed<S: Sink>(system: S, profile: &[u8], events: &[u8], answers: &[u8]) -> S
    ensures { WritesInCalls S.takes system (program_text profile.now events.now answers.now) result }
{
    let mut out = Held::over(system);
    whole(&mut out, profile, events, answers);
    out.flush();
    out.into_behind()
}

fn main(rt: HostRuntime) {
    let mut profile_room = io::large_buffer();
    let mut events_room = io::large_buffer();
    let mut answers_room = io::large_buffer();
    let profile = files::load(&rt, "profile.bin", 32, &mut profile_room);
    let events = files::load(&rt, "events.bin", 16, &mut events_room);
    let answers = files::load(&rt, "answers.bin", 16, &mut answers_room);
    handed(System, profile, events, answers);
}
