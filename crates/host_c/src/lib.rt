#![tactic(auto)]

// The archive that a program in C or Rust links: the functions of `host` under the names of the header, each with its promise again. `wrapper/` has the header.
// The C interface asks for functions of their own: an exported name is a function's, and a library that others link exports none.
ghost use Rattle.std.specs.Prelude.{◌≡◌, length};
ghost use Rattle.profile.specs.Profile.{verdict};
ghost use Rattle.session.specs.Session.{fresh_session};
ghost use Rattle.state.specs.Saved.{restoring, saving, saved_to};
ghost use Rattle.definition.specs.Whole.{whole};
ghost use Rattle.host.specs.Report.{Reports};

use host::Report;
use session::Session;
use state::{Restored, Saved};

// One event. A refused or waiting one leaves the session and all lent memory as they were.
#[unsafe(no_mangle)]
pub extern "C" fn zelwydro_on_event(
    session: &mut Session,
    profile: &[u8],
    event: &[u8],
    answers: &[u8],
    messages: &mut [u8],
    calls: &mut [u8],
) -> Report
    ensures { Reports (whole profile.now session.old event.now answers.now (length messages.old) (length calls.old)) profile.now session.old messages.old calls.old result session.new messages.new calls.new }
{
    host::zelwydro_on_event(session, profile, event, answers, messages, calls)
}

// A session that has seen nothing.
#[unsafe(no_mangle)]
pub extern "C" fn zelwydro_fresh() -> Session
    ensures { result ≡ fresh_session }
{
    host::zelwydro_fresh()
}

// Whether a profile can be used: 0, or the number from 1 to 6 that refuses it.
#[unsafe(no_mangle)]
pub extern "C" fn zelwydro_examine(profile: &[u8]) -> u8
    ensures { result ≡ verdict profile.now }
{
    host::zelwydro_examine(profile)
}

// Back to the device and the scenes that were saved.
#[unsafe(no_mangle)]
pub extern "C" fn zelwydro_restore(session: Session, profile: &[u8], saved: &[u8]) -> Restored
    ensures { result ≡ restoring profile.now saved.now session }
{
    host::zelwydro_restore(session, profile, saved)
}

// What is to be saved after an event that says so.
#[unsafe(no_mangle)]
pub extern "C" fn zelwydro_save(session: Session, profile: &[u8], out: &mut [u8; 136]) -> Saved
    ensures value { result ≡ saving profile.now session }
    ensures out_after { out.new ≡ saved_to profile.now session out.old }
{
    host::zelwydro_save(session, profile, out)
}
