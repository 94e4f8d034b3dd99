// The two primitives, `ask` and `send`, and one function for each use of a driver.
ghost use Rattle.std.specs.Prelude.{◌≡◌, false, map, ◌+◌, ◌*◌, ◌≤◌, ◌<◌, length, get_or};
ghost use Rattle.base.specs.Tail.{at_front};
ghost use Rattle.protocol.specs.Protocol.{sent_to};
ghost use Rattle.protocol.specs.declared.Out.TheVariants.{Led};
ghost use Rattle.drivers.specs.Kinds.{number_of};
ghost use Rattle.drivers.specs.declared.Answer.TheVariants.{Refused};
ghost use Rattle.drivers.specs.Answers.{items_of, item_at, item_count};
ghost use Rattle.drivers.specs.Talk.{got, start, is_going, name_of, ask as ask_of, open_for, use_call, use_done, written as written_of, plain_call, write_call, read_of, write_of, toggle_of, command_of, playing_of, scenes_of, current_of, load_of, live_of, send};
ghost use Rattle.drivers.specs.Shown.{shown, call_bytes, stopped, opened_in, Places, reply_in, Listing, listed};

use crate::{Answer, Call, Kind, LiveFader, LiveFaders, Names, parse};

// Why a line stopped: it waits for the answer to a call, an answer does not fit, or a buffer is full, which no event reaches.
#[derive(Clone, Copy)]
pub enum Stop {
    Going,
    Waits(Call),
    Declined,
    Overrun,
}

impl Stop {
    pub fn is_going(&self) -> bool
        ensures { result ≡ is_going self.now }
    {
        matches!(self, Stop::Going)
    }
}

// The line of an event: the answers and how many bytes of them are read, the calls asked and the messages sent, each with the buffer in which they stand,
// the drivers that are open, and why it stopped. The three buffers keep their counts beside them: the core has fixed memory, and the layout is document 01's.
#[derive(Clone, Copy)]
pub struct Io<'a> {
    pub answers: &'a [u8],
    pub calls: [u8; 5392],
    pub messages: [u8; 306],
    pub read: usize,
    pub asked: usize,
    pub sent: usize,
    pub opened: [bool; 16],
    pub stop: Stop,
}

// A call's answer, the answers from its own record on, and how many items of a list follow it.
#[derive(Clone, Copy)]
struct Reply<'a> {
    answer: Answer,
    part: &'a [u8],
    count: usize,
}

#[tactic(auto, unfolding(crate::specs::Talk::plain_call))]
fn plain(kind: Kind, driver: u8, name: u16, argument: u32) -> Call
    ensures { result ≡ plain_call (number_of kind) driver name argument }
{
    Call {
        kind: kind.number(),
        driver,
        name: written(name),
        argument,
        level: 0,
    }
}

// A name that is absent is written 0.
fn written(name: u16) -> u16
    ensures { result ≡ written_of name }
{
    if name == 65535 { 0 } else { name }
}

// The sixteen bytes of a call, at the start of the part that is lent: the tail of the call buffer.
fn write_call(part: &mut [u8], c: Call)
    requires { 16 ≤ length part.old }
    ensures { part.new ≡ at_front (call_bytes c) part.old }
{
    part[0] = c.kind;
    part[1] = c.driver;
    base::put_u16(part, 2, c.name);
    base::put_u32(part, 4, c.argument);
    base::put_u64(part, 8, c.level);
}

// How many items stand behind the record that the answer starts with.
#[tactic(auto, unfolding(crate::specs::Answers::item_count))]
fn items(part: &[u8], a: Answer) -> usize
    requires { 16 ≤ length part.now }
    ensures { result ≡ item_count a part.now }
{
    if a.is_list() {
        return usize::from(base::read_u16(part, 2));
    }
    0
}

impl<'a> Io<'a> {
    // The line at the start of an event.
    #[tactic(auto, unfolding(crate::specs::Shown::shown, crate::specs::Shown::calls_in, crate::specs::Shown::messages_in))]
    pub fn fresh(answers: &'a [u8], opened: [bool; 16]) -> Io<'a>
        ensures { shown result ≡ start answers.now opened }
    {
        Io {
            answers,
            calls: [0; 5392],
            messages: [0; 306],
            read: 0,
            asked: 0,
            sent: 0,
            opened,
            stop: Stop::Going,
        }
    }

    // ── ask ──

    // A call that is not made counts as refused.
    fn refused(&self) -> Reply<'a>
        ensures { (result.answer ≡ Refused) × (result.count ≡ 0) }
    {
        Reply {
            answer: Answer::Refused,
            part: self.answers,
            count: 0,
        }
    }

    // The line stops.
    fn halt(&mut self, why: Stop) -> Reply<'a>
        ensures line { self.new ≡ stopped why self.old }
        ensures reply { (result.answer ≡ Refused) × (result.count ≡ 0) }
    {
        self.stop = why;
        self.refused()
    }

    // A call takes the next answer.
    fn ask(&mut self, c: Call) -> Reply<'a>
        ensures value { got (reply_in result) (shown self.new) ≡ ask_of c (shown self.old) }
        ensures listing { Listing c.kind result }
    {
        if !self.stop.is_going() {
            return self.refused();
        }
        let full = 337 <= self.asked;
        if full {
            return self.halt(Stop::Overrun);
        }
        if self.answers.len() <= self.read {
            return self.halt(Stop::Waits(c));
        }
        let part = &self.answers[self.read..];
        let answer = parse::first(part, c.kind);
        if answer.is_unfit() {
            return self.halt(Stop::Declined);
        }
        let count = items(part, answer);
        let at = 16 * self.asked;
        write_call(&mut self.calls[at..], c);
        self.asked += 1;
        self.read += 16 + 16 * count;
        Reply {
            answer,
            part,
            count,
        }
    }

    // ── opening ──

    // Whether the driver is open. A profile's and a live list's drivers are 0 to 15, and the line has a place for each. Any other is never open, as in the
    // definition, so that no caller has to carry the bound.
    fn is_open(&self, driver: u8) -> bool
        ensures { result ≡ get_or self.now.opened driver false }
    {
        self.opened
            .get(usize::from(driver))
            .copied()
            .unwrap_or(false)
    }

    // The driver is open from here on; one that has no place changes nothing.
    #[tactic(auto, using(crate::proofs::Laws::past_same))]
    fn opening(&mut self, driver: u8)
        ensures { self.new ≡ opened_in self.old driver }
    {
        if driver < 16 {
            self.opened[usize::from(driver)] = true;
        }
    }

    // Whether the driver is open, or opens now for a use of the name.
    #[tactic(auto, unfolding(crate::specs::Talk::open_for, crate::specs::Talk::next, crate::specs::Shown::reply_in), using(crate::proofs::Laws::is_open_lem, crate::proofs::Laws::opens))]
    fn open_for(&mut self, driver: u8, name: u16) -> bool
        ensures { got result (shown self.new) ≡ open_for driver name (shown self.old) }
    {
        if self.is_open(driver) {
            return true;
        }
        let opens = self
            .ask(plain(Kind::Open, driver, name, 0))
            .answer
            .is_done();
        if opens {
            self.opening(driver);
        }
        opens
    }

    // A use of a driver: it is opened first, until that succeeds once, and a refused open stands for the use.
    #[tactic(auto, unfolding(crate::specs::Talk::use_call, crate::specs::Talk::next, crate::specs::Shown::reply_in, crate::specs::Answers::items_of), using(crate::proofs::Laws::no_listing))]
    fn use_call(&mut self, c: Call) -> Reply<'a>
        ensures value { got (reply_in result) (shown self.new) ≡ use_call c (shown self.old) }
        ensures listing { Listing c.kind result }
    {
        if self.open_for(c.driver, c.name) {
            self.ask(c)
        } else {
            self.refused()
        }
    }

    // ── the uses ──

    // Whether the call was made and answered done.
    #[tactic(auto, unfolding(crate::specs::Talk::use_done, crate::specs::Talk::next, crate::specs::Shown::reply_in))]
    fn done(&mut self, c: Call) -> bool
        ensures { got result (shown self.new) ≡ use_done c (shown self.old) }
    {
        self.use_call(c).answer.is_done()
    }

    // The driver is opened for its buttons alone, which are no call.
    pub fn open(&mut self, driver: u8) -> bool
        ensures { got result (shown self.new) ≡ open_for driver 0 (shown self.old) }
    {
        self.open_for(driver, 0)
    }

    #[tactic(auto, unfolding(crate::specs::Talk::read_of, crate::specs::Talk::next, crate::specs::Shown::reply_in))]
    pub fn read(&mut self, driver: u8, name: u16) -> Option<f64>
        ensures { got result (shown self.new) ≡ read_of driver name (shown self.old) }
    {
        match self.use_call(plain(Kind::Read, driver, name, 0)).answer {
            Answer::Level(x) => Some(x),
            _ => None,
        }
    }

    #[tactic(auto, unfolding(crate::specs::Talk::write_of, crate::specs::Talk::write_call, crate::specs::Talk::next))]
    pub fn write(&mut self, driver: u8, name: u16, value: f64) -> bool
        ensures { got result (shown self.new) ≡ write_of driver name value (shown self.old) }
    {
        self.done(Call {
            kind: Kind::Write.number(),
            driver,
            name: written(name),
            argument: 0,
            level: float::to_bits(value),
        })
    }

    #[tactic(auto, unfolding(crate::specs::Talk::toggle_of, crate::specs::Talk::next, crate::specs::Shown::reply_in))]
    pub fn toggle(&mut self, driver: u8, name: u16) -> bool
        ensures { got result (shown self.new) ≡ toggle_of driver name (shown self.old) }
    {
        self.done(plain(Kind::Toggle, driver, name, 0))
    }

    #[tactic(auto, unfolding(crate::specs::Talk::command_of, crate::specs::Talk::next, crate::specs::Shown::reply_in))]
    pub fn command(&mut self, driver: u8, name: u16, what: u16) -> bool
        ensures { got result (shown self.new) ≡ command_of driver name what (shown self.old) }
    {
        self.done(plain(Kind::Command, driver, name, u32::from(what)))
    }

    // Whether the player said yes or no, and so is there at all.
    #[tactic(auto, unfolding(crate::specs::Talk::playing_of, crate::specs::Talk::next, crate::specs::Shown::reply_in))]
    pub fn playing(&mut self, driver: u8, name: u16) -> bool
        ensures { got result (shown self.new) ≡ playing_of driver name (shown self.old) }
    {
        self.use_call(plain(Kind::Playing, driver, name, 0))
            .answer
            .is_yes_no()
    }

    // The scenes that the device has, by name. An `if` here and in `live_faders`, and no `then`: the proof over its closure did not close.
    #[tactic(auto, unfolding(crate::specs::Talk::scenes_of, crate::specs::Talk::next, crate::specs::Shown::reply_in, crate::specs::Answers::items_of), using(crate::proofs::Laws::plain_listing))]
    pub fn scenes(&mut self, driver: u8) -> Option<Names>
        ensures { got (listed result) (shown self.new) ≡ scenes_of driver (shown self.old) }
    {
        let list = self.use_call(plain(Kind::Scenes, driver, 0, 0));
        if list.answer.is_list() {
            Some(list.names())
        } else {
            None
        }
    }

    // The scene that the device has loaded, as a place in its own list.
    #[tactic(auto, unfolding(crate::specs::Talk::current_of, crate::specs::Talk::next, crate::specs::Shown::reply_in))]
    pub fn current_scene(&mut self, driver: u8) -> Option<u32>
        ensures { got result (shown self.new) ≡ current_of driver (shown self.old) }
    {
        match self.use_call(plain(Kind::Current, driver, 0, 0)).answer {
            Answer::Index(i) => Some(i),
            _ => None,
        }
    }

    #[tactic(auto, unfolding(crate::specs::Talk::load_of, crate::specs::Talk::next, crate::specs::Shown::reply_in))]
    pub fn load_scene(&mut self, driver: u8, place: u32) -> bool
        ensures { got result (shown self.new) ≡ load_of driver place (shown self.old) }
    {
        self.done(plain(Kind::Load, driver, 0, place))
    }

    // The faders that a live bank of the driver has right now.
    #[tactic(auto, unfolding(crate::specs::Talk::live_of, crate::specs::Talk::next, crate::specs::Shown::reply_in, crate::specs::Answers::items_of), using(crate::proofs::Laws::plain_listing))]
    pub fn live_faders(&mut self, driver: u8, which: u16) -> Option<LiveFaders>
        ensures { got (listed result) (shown self.new) ≡ live_of driver which (shown self.old) }
    {
        let list = self.use_call(plain(Kind::Live, driver, 0, u32::from(which)));
        if list.answer.is_list() {
            Some(list.faders())
        } else {
            None
        }
    }

    // ── send ──

    // Where the next message goes, if the line goes on and the buffer has room; it counts as sent.
    #[tactic(auto, using(crate::proofs::Laws::no_place, crate::proofs::Laws::no_room, crate::proofs::Laws::placed))]
    fn next_message(&mut self) -> Option<usize>
        ensures { Places self.old result self.new }
    {
        if !self.stop.is_going() {
            return None;
        }
        if 102 <= self.sent {
            self.stop = Stop::Overrun;
            return None;
        }
        let at = 3 * self.sent;
        self.sent += 1;
        Some(at)
    }

    // A lamp's message, behind the event's messages already there. Each lamp and each position has its writer by a rule of the project, so that the senders are two.
    #[tactic(auto, using(base::proofs::TailLaws::tail_over))]
    pub fn send_led(&mut self, note: u8, on: bool)
        ensures { shown self.new ≡ send (Led note on) (shown self.old) }
    {
        if let Some(at) = self.next_message() {
            protocol::write_led(&mut self.messages[at..], note, on);
        }
    }

    // Every position that is sent goes through here.
    #[tactic(auto, using(base::proofs::TailLaws::tail_over))]
    pub fn send_position(&mut self, channel: u8, value: f64)
        ensures { shown self.new ≡ send (sent_to channel value) (shown self.old) }
    {
        if let Some(at) = self.next_message() {
            protocol::write_position(&mut self.messages[at..], channel, value);
        }
    }
}

impl Reply<'_> {
    // The names of a list's items, which go by their number, as the definitions have them. It stands beside `faders` as `Names` beside `LiveFaders`.
    #[tactic(auto, unfolding(crate::specs::Shown::reply_in), using(crate::proofs::Laws::names_more))]
    fn names(&self) -> Names
        requires { Listing 6 self.now }
        ensures { result ≡ map name_of (reply_in self.now).items }
    {
        let mut names = Names::none();
        for i in 0..self.count {
            names.push(base::read_u16(self.part, 16 * i + 18));
        }
        names
    }

    // Item i of a list of live faders.
    fn fader(&self, i: usize) -> LiveFader
        requires { 16 * i + 32 ≤ length self.now.part.now }
        ensures { result ≡ item_at self.now.part.now i }
    {
        let at = 16 * i + 16;
        LiveFader {
            number: self.part[at + 1],
            target: base::read_u16(self.part, at + 2),
            label: base::read_u16(self.part, at + 4),
            group: base::read_u16(self.part, at + 6),
            mute: base::read_u16(self.part, at + 8),
        }
    }

    #[tactic(auto, unfolding(crate::specs::Shown::reply_in), using(crate::proofs::Laws::items_more))]
    fn faders(&self) -> LiveFaders
        requires { Listing 9 self.now }
        ensures { result ≡ (reply_in self.now).items }
    {
        let mut faders = LiveFaders::none();
        for i in 0..self.count {
            faders.push(self.fader(i));
        }
        faders
    }
}
