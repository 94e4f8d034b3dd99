#![tactic(auto)]

// The bridge for a program in C or Rust: the entry over a session that the program keeps, and what it needs beside it. An enum cannot cross, so that an outcome
// is told in numbers. `host_c` exports these functions; `wrapper/` has the header, and a safe layer in Rust.
ghost use Rattle.std.specs.Prelude.{◌≡◌, length};
ghost use Rattle.profile.specs.Profile.{verdict};
ghost use Rattle.session.specs.Session.{fresh_session};
ghost use Rattle.state.specs.Saved.{restoring, saving, saved_to};
ghost use Rattle.definition.specs.Whole.{whole};
ghost use Rattle.delivery.specs.Delivery.{told};
ghost use Rattle.host.specs.Report.{undone_by, report_of, Reports};

use delivery::Outcome;
use drivers::Call;
use session::Session;
use state::{Restored, Saved};

// What became of an event. Kind 0: done, with how many messages it sent, calls it made and answers it used, and whether there is something to save. 1: refused, with
// document 01's number. 2: waiting for the answer to a call.
#[repr(C)]
#[derive(Clone, Copy)]
pub struct Report {
    pub kind: u8,
    pub number: u8,
    pub saved: bool,
    pub messages: usize,
    pub calls: usize,
    pub used: usize,
    pub call: Call,
}

// An event that did not end: all counts are 0.
fn undone(kind: u8, number: u8, call: Call) -> Report
    ensures { result ≡ undone_by kind number call }
{
    Report {
        kind,
        number,
        saved: false,
        messages: 0,
        calls: 0,
        used: 0,
        call,
    }
}

impl From<Outcome> for Report {
    ghost from_gives = { λ o r. r ≡ report_of (told o) };

    fn from(outcome: Outcome) -> Report {
        let none = Call {
            kind: 0,
            driver: 0,
            name: 0,
            argument: 0,
            level: 0,
        };
        match outcome {
            Outcome::Done {
                messages,
                calls,
                used,
                saved,
            } => Report {
                kind: 0,
                number: 0,
                saved,
                messages,
                calls,
                used,
                call: none,
            },
            Outcome::Refused(why) => undone(1, why.number(), none),
            Outcome::Waiting(call) => undone(2, 0, call),
        }
    }
}

// One event. A refused or waiting one leaves the session and all lent memory as they were. By document 01 it calls the core, which takes the session by value
// and hands it on.
pub fn zelwydro_on_event(
    session: &mut Session,
    profile: &[u8],
    event: &[u8],
    answers: &[u8],
    messages: &mut [u8],
    calls: &mut [u8],
) -> Report
    ensures { Reports (whole profile.now session.old event.now answers.now (length messages.old) (length calls.old)) profile.now session.old messages.old calls.old result session.new messages.new calls.new }
{
    let stepped = bridge::step(*session, profile, event, answers, messages, calls);
    if stepped.changed {
        *session = stepped.session;
    }
    Report::from(stepped.outcome)
}

// A session that has seen nothing.
pub fn zelwydro_fresh() -> Session
    ensures { result ≡ fresh_session }
{
    session::fresh()
}

// Whether a profile can be used: 0, or the number from 1 to 6 that refuses it.
pub fn zelwydro_examine(profile: &[u8]) -> u8
    ensures { result ≡ verdict profile.now }
{
    profile::number(profile::examine(profile))
}

// Back to the device and the scenes that were saved.
pub fn zelwydro_restore(session: Session, profile: &[u8], saved: &[u8]) -> Restored
    ensures { result ≡ restoring profile.now saved.now session }
{
    Restored::handed(state::restore(session, profile, saved), session)
}

// What is to be saved after an event that says so.
pub fn zelwydro_save(session: Session, profile: &[u8], out: &mut [u8; 136]) -> Saved
    ensures value { result ≡ saving profile.now session }
    ensures out_after { out.new ≡ saved_to profile.now session out.old }
{
    Saved::counted(state::saved_records(&session, profile, out))
}
