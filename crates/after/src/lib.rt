#![tactic(auto)]

// The session with what an event left. It is changed in place.
ghost use Rattle.std.specs.Prelude.{◌≡◌, true, [], map, ◌≤◌, ◌<◌};
ghost use Rattle.std.specs.Option.{is_some};
ghost use Rattle.base.specs.Choice.{pick};
ghost use Rattle.session.specs.Session.{has_place, seen_line, seen_strips};
ghost use Rattle.definition.specs.Step.{lives_after};
ghost use Rattle.after.specs.After.{marks_after, strips_left, TurnsAfter, KnownIf, FewAfter, KeepsPlaces, Fades, Lasts};

use hands::Verdict;
use session::{Lamps, Line, Live, Marks, Session, Silenced, Strips, Turns};

// What is known before an event runs: the bank that is current after it, whether it is a tick, and whether a refresh of the live bank is due.
#[derive(Clone, Copy)]
pub struct Setting {
    pub after: u8,
    pub ticks: bool,
    pub due: bool,
}

// What an event leaves beside lamps and silenced levels, other than a fader's or an encoder's: the current bank, and its live faders if they are others now. A
// bank selected or a scene loaded is `moved`: all marks go, and the live bank is due.
#[derive(Clone, Copy)]
pub struct Left {
    pub bank: u8,
    pub strips: Option<Strips>,
    pub moved: bool,
    pub saved: bool,
}

// The session with what a finished move left; k is its channel's place on the desk. A held one is only seen; one that took over is marked too, and waits.
pub fn faded(
    session: &mut Session,
    verdict: Verdict,
    k: usize,
    channel: u8,
    value: f64,
    opened: [bool; 16],
)
    requires k_bound { k < 256 }
    requires count_bound { session.old.line.count ≤ 16 }
    requires line_value { has_place channel (seen_line session.old.line) ≡ true }
    ensures fades { Fades session.old verdict k channel value opened session.new }
    ensures keeps_places { KeepsPlaces session.old session.new }
{
    session.opened = opened;
    match verdict {
        Verdict::Ignored => {}
        Verdict::Held => session.moves.put(k, value),
        Verdict::Taken => {
            session.moves.put(k, value);
            session.marks.mark(k);
            session.line.place(channel, value);
        }
    }
}

// ── any other event ──

// A changed live list is kept.
fn live_after(live: &mut Live, bank: u8, strips: &Option<Strips>)
    requires bank_bound { bank < 16 }
    requires known_if { KnownIf strips.now }
    ensures banks_value { map seen_strips live.new.banks ≡ lives_after (is_some strips.now) bank (strips_left strips.now) (map seen_strips live.old.banks) }
    ensures few_after { FewAfter live.old live.new }
{
    if let Some(s) = strips {
        live.set(bank, *s);
    }
}

// All marks go, or those of a bank whose live list changed.
fn marks_after(marks: &mut Marks, moved: bool, changed: bool, bank: u8)
    requires { bank < 16 }
    ensures { marks.new ≡ marks_after moved changed bank marks.old }
{
    if moved {
        *marks = Marks::none();
    } else if changed {
        marks.unmark(bank);
    }
}

// A tick hands the line over, and the sums.
fn line_after(line: &mut Line, ticks: bool)
    requires { line.old.count ≤ 16 }
    ensures result_value { seen_line line.new ≡ pick ticks [] (seen_line line.old) }
    ensures count_bound { line.new.count ≤ 16 }
{
    if ticks {
        line.empty();
    }
}

fn turns_after(turns: &mut Turns, ticks: bool)
    ensures { TurnsAfter ticks turns.old turns.new }
{
    if ticks {
        turns.empty();
    }
}

// When the live bank was asked last.
fn at_after(at: f64, time: f64, refreshed: bool) -> f64
    ensures { result ≡ pick refreshed time at }
{
    if refreshed { time } else { at }
}

// The session with what a finished event left: with its lamps and silenced levels, and the drivers that are open then.
pub fn after(
    session: &mut Session,
    at: Setting,
    left: &Left,
    lamps: Lamps,
    silenced: &Silenced,
    opened: [bool; 16],
    time: f64,
)
    requires bank_bound { session.old.bank < 16 }
    requires count_bound { session.old.line.count ≤ 16 }
    requires count_bound_2 { silenced.now.count ≤ 256 }
    requires known_if { KnownIf left.now.strips }
    ensures lasts { Lasts session.old at left.now lamps silenced.now opened time session.new }
    ensures keeps_places { KeepsPlaces session.old session.new }
{
    let bank = session.bank;
    let refreshed = at.ticks & at.due;
    live_after(&mut session.live, bank, &left.strips);
    marks_after(&mut session.marks, left.moved, left.strips.is_some(), bank);
    line_after(&mut session.line, at.ticks);
    turns_after(&mut session.turns, at.ticks);
    session.livedue = (session.livedue & !refreshed) | left.moved;
    session.liveat = at_after(session.liveat, time, refreshed);
    session.bank = left.bank;
    session.lamps = lamps;
    session.silenced = *silenced;
    session.opened = opened;
}
