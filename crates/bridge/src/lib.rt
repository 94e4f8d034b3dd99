#![tactic(auto)]

// The bridge: a Mackie surface in, drivers out. An event runs on scratch buffers; only a finished one is delivered to the lent memory. The port of bridge.rs.
mod acts;
mod buttons;
mod which;

ghost use Rattle.std.specs.Prelude.{◌≡◌, true, false, ◌+◌, ◌*◌, ◌≤◌, ◌<◌, length, take};
ghost use Rattle.base.specs.Choice.{pick};
ghost use Rattle.base.specs.Keyed.{all_of};
ghost use Rattle.profile.specs.Profile.{verdict};
ghost use Rattle.lookup.specs.Lookup.{remember_of};
ghost use Rattle.lookup.specs.View.{view_of};
ghost use Rattle.drivers.specs.Shown.{shown};
ghost use Rattle.session.specs.Session.{is_marked, low_channel, is_encoder, seen_line, seen_turns, seen_silenced};
ghost use Rattle.delivery.specs.declared.Outcome.TheVariants as outcome;
ghost use Rattle.definition.specs.Faders.{in_range};
ghost use Rattle.definition.specs.Shape.{shaped_strips, well_shaped};
ghost use Rattle.definition.specs.Step.{seen, refusal, step as step_of};
ghost use Rattle.definition.specs.Whole.{whole};
ghost use Rattle.rig.specs.Seen.{rig_in};
ghost use Rattle.bridge.specs.Which.{runs};
ghost use Rattle.bounds.specs.Room.{LowInput};
ghost use Rattle.bridge.specs.Bridge.{Delivers, IsCurrent, is_idle, drain_if, ran, Asks, Moves as MovesAs, Glides, Turns as TurnsAs, setting_of, Talks};

use after::{Left, Setting};
use delivery::{Outcome, Refusal};
use drivers::Io;
use event::Timed;
use hands::Verdict;
use rig::{Accepted, Current};
use session::{Lamps, Line, Session, Silenced, Turns};
use which::Hand;

// What became of an event, the session after it, and whether that is another than the one that was handed in. Document 01 hands the session on by value, and a host
// stores only another one: so the flag stands beside it.
#[derive(Clone, Copy)]
pub struct Stepped {
    pub outcome: Outcome,
    pub session: Session,
    pub changed: bool,
}

// What became of an event over a session that is changed in place, and whether it was.
#[derive(Clone, Copy)]
struct Ran {
    outcome: Outcome,
    changed: bool,
}

impl Ran {
    // An event that asked and sent nothing.
    fn silent(changed: bool) -> Ran
        ensures { result ≡ record { outcome = outcome.Done 0 0 0 false; changed = changed } }
    {
        Ran {
            outcome: Outcome::Done {
                messages: 0,
                calls: 0,
                used: 0,
                saved: false,
            },
            changed,
        }
    }

    fn refused(why: Refusal) -> Ran
        ensures { result ≡ record { outcome = outcome.Refused why; changed = false } }
    {
        Ran {
            outcome: Outcome::Refused(why),
            changed: false,
        }
    }
}

// A bank and its faders.
fn current<'a>(session: &'a Session, profile: &'a [u8], bank: u8) -> Current<'a>
    requires bank_bound { bank < 16 }
    requires banks_value { all_of shaped_strips session.now.live.banks ≡ true }
    ensures { IsCurrent profile.now session.now.live bank result }
{
    Current {
        profile,
        bank,
        strips: session.live.strips(bank),
    }
}

// ── a fader ──

// The place on the desk of a channel in the current bank.
fn place(session: &Session, channel: u8) -> usize
    ensures { result ≡ session.now.bank * 16 + channel }
{
    usize::from(session.bank) * 16 + usize::from(channel)
}

// A fader in control asks nothing, so no scratch buffers are laid out.
fn in_control(session: &mut Session, profile: &[u8], channel: u8, value: f64) -> Ran
    requires profile_value { verdict profile.now ≡ 0 }
    requires session_value { well_shaped profile.now session.old ≡ true }
    requires channel_bound { channel < 16 }
    requires marks_value { is_marked (session.old.bank * 16 + channel) session.old.marks ≡ true }
    ensures { Glides profile.now session.old channel value (ran result session.new) }
{
    let here = current(session, profile, session.bank);
    let verdict = hands::faders::in_control(&here, channel);
    let k = place(session, channel);
    let opened = session.opened;
    after::faded(session, verdict, k, channel, value, opened);
    Ran::silent(true)
}

// What became of a move that asked its device, and the drivers that are open then.
#[derive(Clone, Copy)]
struct Asked {
    outcome: Outcome,
    verdict: Verdict,
    opened: [bool; 16],
}

// Any other asks its device where it stands.
fn ask(
    session: &Session,
    profile: &[u8],
    channel: u8,
    value: f64,
    answers: &[u8],
    messages: &mut [u8],
    calls: &mut [u8],
) -> Asked
    requires profile_value { verdict profile.now ≡ 0 }
    requires session_value { well_shaped profile.now session.now ≡ true }
    requires in_bounds { 306 ≤ length messages.old }
    requires in_bounds_2 { 5392 ≤ length calls.old }
    requires channel_bound { channel < 16 }
    requires marks_value { is_marked (session.now.bank * 16 + channel) session.now.marks ≡ false }
    ensures { Asks profile.now session.now channel value answers.now messages.old calls.old result messages.new calls.new }
{
    let here = current(session, profile, session.bank);
    let last = session.moves.last(place(session, channel));
    let mut io = Io::fresh(answers, session.opened);
    let verdict = hands::faders::fader(&mut io, &here, last, channel, value);
    let outcome = delivery::ending(&io, messages, calls, false);
    Asked {
        outcome,
        verdict,
        opened: io.opened,
    }
}

// It takes over or is held, unless its event waits or is refused.
fn take_over(
    session: &mut Session,
    profile: &[u8],
    channel: u8,
    value: f64,
    answers: &[u8],
    messages: &mut [u8],
    calls: &mut [u8],
) -> Ran
    requires profile_value { verdict profile.now ≡ 0 }
    requires session_value { well_shaped profile.now session.old ≡ true }
    requires in_bounds { 306 ≤ length messages.old }
    requires in_bounds_2 { 5392 ≤ length calls.old }
    requires channel_bound { channel < 16 }
    requires marks_value { is_marked (session.old.bank * 16 + channel) session.old.marks ≡ false }
    ensures { MovesAs profile.now session.old channel value answers.now messages.old calls.old (ran result session.new) messages.new calls.new }
{
    // Lent as a slice, the drivers that are open are known to have all their places.
    let _opened: &[bool] = &session.opened;
    let a = ask(session, profile, channel, value, answers, messages, calls);
    let changed = a.outcome.is_done();
    if changed {
        let k = place(session, channel);
        after::faded(session, a.verdict, k, channel, value, a.opened);
    }
    Ran {
        outcome: a.outcome,
        changed,
    }
}

fn on_fader(
    session: &mut Session,
    profile: &[u8],
    channel: u8,
    value: f64,
    answers: &[u8],
    messages: &mut [u8],
    calls: &mut [u8],
) -> Ran
    requires profile_value { verdict profile.now ≡ 0 }
    requires session_value { well_shaped profile.now session.old ≡ true }
    requires in_bounds { 306 ≤ length messages.old }
    requires in_bounds_2 { 5392 ≤ length calls.old }
    requires channel_bound { channel < 16 }
    ensures { MovesAs profile.now session.old channel value answers.now messages.old calls.old (ran result session.new) messages.new calls.new }
{
    let k = place(session, channel);
    if session.marks.is_marked(k) {
        return in_control(session, profile, channel, value);
    }
    take_over(session, profile, channel, value, answers, messages, calls)
}

// ── an encoder ──

// An encoder makes no call and sends nothing.
fn on_encoder(session: &mut Session, profile: &[u8], channel: u8, delta: i32) -> Ran
    requires profile_value { verdict profile.now ≡ 0 }
    requires session_value { well_shaped profile.now session.old ≡ true }
    requires channel_bound { channel < 8 }
    requires delta_value { in_range delta ≡ true }
    ensures { TurnsAs profile.now session.old channel delta (ran result session.new) }
{
    // Lent as slices, the sums and their records are known to have all their places.
    let _records: &[u16] = &session.turns.records;
    let _sums: &[i32] = &session.turns.sums;
    let Some(at) = lookup::encoder_record(profile, session.bank, channel + 1) else {
        return Ran::silent(false);
    };
    let k = at as u16;
    if let Err(why) = hands::encoders::turn_declined(profile, &session.turns, k, delta) {
        return Ran::refused(Refusal::Turn(why));
    }
    session.turns.turn(profile, k, delta);
    Ran::silent(true)
}

// ── any other event ──

// A tick's drain: one read and one write for each sum that is not 0, then the line. No other event has one.
fn drain(io: &mut Io<'_>, here: &Current<'_>, line: &Line, turns: &Turns, ticks: bool)
    requires line_bound { line.now.count ≤ 16 }
    requires line_value { all_of low_channel (seen_line line.now) ≡ true }
    requires turns_bound { turns.now.count ≤ 136 }
    requires records_value { all_of (is_encoder here.now.profile.now) (take turns.now.count turns.now.records) ≡ true }
    ensures { shown io.new ≡ drain_if ticks (rig_in here.now) (seen_line line.now) (seen_turns here.now.profile.now turns.now) (shown io.old) }
{
    if ticks {
        hands::encoders::drain_turns(io, here.profile, turns);
        hands::encoders::drain_line(io, here, line);
    }
}

fn setting_of(session: &Session, profile: &[u8], e: Timed) -> Setting
    requires { session.now.bank < 16 }
    ensures { result ≡ setting_of profile.now session.now e }
{
    Setting {
        after: buttons::bank_after(profile, session.bank, which::press_of(e.what)),
        ticks: which::is_tick(e.what),
        due: live::is_due(session.livedue, session.liveat, e.time),
    }
}

// What became of any other event, and what it leaves. One type for this and `Asked` would be no plainer: each is made once and taken apart once.
#[derive(Clone, Copy)]
struct Talked {
    outcome: Outcome,
    left: Left,
    opened: [bool; 16],
}

// Runs the event on scratch buffers, and delivers what it sent and asked if it is done. Lamps and silenced levels, which are the session's, are lent apart from it:
// one that is not done leaves the session as it was.
fn talk(
    session: &Session,
    profile: &[u8],
    e: Timed,
    at: Setting,
    lamps: &mut Lamps,
    silenced: &mut Silenced,
    answers: &[u8],
    messages: &mut [u8],
    calls: &mut [u8],
) -> Talked
    requires profile_value { verdict profile.now ≡ 0 }
    requires session_value { well_shaped profile.now session.now ≡ true }
    requires in_bounds { 306 ≤ length messages.old }
    requires in_bounds_2 { 5392 ≤ length calls.old }
    requires what_value { runs e.what ≡ true }
    requires time_value { refusal e.what (view_of profile.now) (seen profile.now session.now) e.time ≡ 0 }
    requires at_value { at ≡ setting_of profile.now session.now e }
    requires lamps_value { lamps.old ≡ session.now.lamps }
    requires silenced_value { silenced.old ≡ session.now.silenced }
    requires few_value { length (seen_silenced session.now.silenced) ≤ 256 }
    ensures talks { Talks profile.now session.now e answers.now messages.old calls.old (remember_of profile.now) result lamps.new (seen_silenced silenced.new) messages.new calls.new }
    ensures silenced_bound { silenced.new.count ≤ 256 }
{
    let current_bank = current(session, profile, session.bank);
    let here = Accepted { here: current_bank };
    let there = current(session, profile, at.after);
    let mut io = Io::fresh(answers, session.opened);
    drain(&mut io, &here.here, &session.line, &session.turns, at.ticks);
    let left = acts::run(
        &mut io,
        &here,
        &there,
        at.due,
        lamps,
        silenced,
        &session.moves,
        e,
    );
    let saved = left.saved & lookup::remember(profile);
    let outcome = delivery::ending(&io, messages, calls, saved);
    Talked {
        outcome,
        left,
        opened: io.opened,
    }
}

// Number 11: with what the press adds, more than 256 targets would be silenced.
fn overfull(session: &Session, profile: &[u8], e: Timed) -> bool
    requires profile_value { verdict profile.now ≡ 0 }
    requires session_value { well_shaped profile.now session.now ≡ true }
    requires what_value { runs e.what ≡ true }
    ensures eleven { pick result 11 0 ≡ refusal e.what (view_of profile.now) (seen profile.now session.now) e.time }
    ensures few { length (seen_silenced session.now.silenced) ≤ 256 }
{
    let here = current(session, profile, session.bank);
    let silenced_targets = session.silenced.targets();
    let added = buttons::added_by(
        &here,
        &session.lamps,
        silenced_targets,
        which::press_of(e.what),
    );
    256 < silenced_targets.len() + added
}

// A press, a tick, a push or a flash.
fn on_other(
    session: &mut Session,
    profile: &[u8],
    e: Timed,
    answers: &[u8],
    messages: &mut [u8],
    calls: &mut [u8],
) -> Ran
    requires profile_value { verdict profile.now ≡ 0 }
    requires session_value { well_shaped profile.now session.old ≡ true }
    requires in_bounds { 306 ≤ length messages.old }
    requires in_bounds_2 { 5392 ≤ length calls.old }
    requires what_value { runs e.what ≡ true }
    ensures { Delivers (step_of (view_of profile.now) (seen profile.now session.old) e answers.now) profile.now session.old messages.old calls.old (ran result session.new) messages.new calls.new }
{
    if overfull(session, profile, e) {
        return Ran::refused(Refusal::Silenced);
    }
    let at = setting_of(session, profile, e);
    let mut lamps = session.lamps;
    let mut silenced = session.silenced;
    let t = talk(
        session,
        profile,
        e,
        at,
        &mut lamps,
        &mut silenced,
        answers,
        messages,
        calls,
    );
    let changed = t.outcome.is_done();
    if changed {
        after::after(session, at, &t.left, lamps, &silenced, t.opened, e.time);
    }
    Ran {
        outcome: t.outcome,
        changed,
    }
}

// A tick with nothing to do.
fn is_idle(session: &Session, time: f64) -> bool
    ensures { result ≡ is_idle session.now time }
{
    let due = live::is_due(session.livedue, session.liveat, time);
    (session.line.count == 0) & ((session.turns.count == 0) & (!due & !session.lamps.flash.on))
}

// ── all of them ──

// An event that is none of the numbers 1 to 10.
fn on_event(
    session: &mut Session,
    profile: &[u8],
    e: Timed,
    answers: &[u8],
    messages: &mut [u8],
    calls: &mut [u8],
) -> Ran
    requires profile_value { verdict profile.now ≡ 0 }
    requires session_value { well_shaped profile.now session.old ≡ true }
    requires in_bounds { 306 ≤ length messages.old }
    requires in_bounds_2 { 5392 ≤ length calls.old }
    requires low_input { LowInput e.what }
    ensures { Delivers (step_of (view_of profile.now) (seen profile.now session.old) e answers.now) profile.now session.old messages.old calls.old (ran result session.new) messages.new calls.new }
{
    if which::is_nothing(e.what) | (which::is_tick(e.what) & is_idle(session, e.time)) {
        return Ran::silent(false);
    }
    match which::hand_of(e.what) {
        Some(Hand::Fader { channel, value }) => {
            on_fader(session, profile, channel, value, answers, messages, calls)
        }
        Some(Hand::Encoder { channel, delta }) => on_encoder(session, profile, channel, delta),
        None => on_other(session, profile, e, answers, messages, calls),
    }
}

// One event. A refused or waiting one leaves the session and all lent memory as they were. Number 7 is of the saved records alone.
//
// From here on the profile, the session, the answers and the two lent buffers travel together, and the facts of profile and session with them. No type holds
// them: the session is lent to be changed, and none can hold that it is well shaped on the way; the buffers are the entry's own parameters, of which the promise speaks
// byte by byte.
fn run(
    session: &mut Session,
    profile: &[u8],
    event: &[u8],
    answers: &[u8],
    messages: &mut [u8],
    calls: &mut [u8],
) -> Ran
    ensures { Delivers (whole profile.now session.old event.now answers.now (length messages.old) (length calls.old)) profile.now session.old messages.old calls.old (ran result session.new) messages.new calls.new }
{
    if let Err(why) = profile::examine(profile) {
        return Ran::refused(Refusal::Profile(why));
    }
    if !shape::shaped(profile, session) {
        return Ran::refused(Refusal::Session);
    }
    if (messages.len() < 306) | (calls.len() < 5392) {
        return Ran::refused(Refusal::Buffers);
    }
    match event::read_event(event) {
        Some(e) => on_event(session, profile, e, answers, messages, calls),
        None => Ran::refused(Refusal::Event),
    }
}

// One event. The session is handed in and on by value; on the way it is changed in place.
pub fn step(
    session: Session,
    profile: &[u8],
    event: &[u8],
    answers: &[u8],
    messages: &mut [u8],
    calls: &mut [u8],
) -> Stepped
    ensures { Delivers (whole profile.now session event.now answers.now (length messages.old) (length calls.old)) profile.now session messages.old calls.old result messages.new calls.new }
{
    let mut next = session;
    let ran = run(&mut next, profile, event, answers, messages, calls);
    Stepped {
        outcome: ran.outcome,
        session: next,
        changed: ran.changed,
    }
}
