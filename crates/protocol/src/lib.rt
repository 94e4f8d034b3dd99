#![tactic(auto)]

// Mackie Control: the language the surface speaks. Faders are 14-bit pitch bend, encoders are relative controllers, buttons are notes, and each lamp is
// lit by sending its button's note back. The port of protocol.rs.
ghost use Rattle.std.specs.Prelude.{◌≡◌, ◌<◌, ◌≤◌, length, get_or};
ghost use Rattle.base.specs.Tail.{at_front};
ghost use Rattle.protocol.specs.Protocol.{channel_bases, named, is_of_base, base_of, named_of, number_of, kind_of, channel_of, note_of, transport_note, delta_of, decode_of, velocity_of, bytes_of, heard_of, sent_to};

// The first note of each channel's button: note = base + channel.
pub const REC: u8 = 0x00;

pub const SOLO: u8 = 0x08;

pub const MUTE: u8 = 0x10;

pub const SELECT: u8 = 0x18;

pub const BANK_LEFT: u8 = 0x2E;

pub const BANK_RIGHT: u8 = 0x2F;

pub const REWIND: u8 = 0x5B;

pub const FORWARD: u8 = 0x5C;

pub const STOP: u8 = 0x5D;

pub const PLAY: u8 = 0x5E;

pub const RECORD: u8 = 0x5F;

pub const ARROW_UP: u8 = 0x60;

pub const ARROW_DOWN: u8 = 0x61;

pub const ARROW_LEFT: u8 = 0x62;

pub const ARROW_RIGHT: u8 = 0x63;

// Encoder n is controller VPOT + n.
pub const VPOT: u8 = 0x10;

pub const ON: u8 = 127;

pub const OFF: u8 = 0;

// A rule of the project: the notes stand in two constant arrays in the order of the kinds, looked up by note and by kind.
const CHANNEL_BASES: [u8; 4] = [REC, SOLO, MUTE, SELECT];

const NAMED: [u8; 11] = [
    BANK_LEFT,
    BANK_RIGHT,
    ARROW_LEFT,
    ARROW_RIGHT,
    ARROW_UP,
    ARROW_DOWN,
    REWIND,
    FORWARD,
    STOP,
    PLAY,
    RECORD,
];

// The kind of a button, and by its place the number that a profile has for it: 0 to 3 are the bases, 4 to 14 the named ones.
#[derive(Clone, Copy, PartialEq, Eq)]
pub enum Kind {
    Rec = 0,
    Solo,
    Mute,
    Select,
    BankLeft,
    BankRight,
    ArrowLeft,
    ArrowRight,
    ArrowUp,
    ArrowDown,
    Rewind,
    Forward,
    Stop,
    Play,
    Record,
    Unknown,
}

// The kinds that have a note, in the order of their numbers.
const KINDS: [Kind; 15] = [
    Kind::Rec,
    Kind::Solo,
    Kind::Mute,
    Kind::Select,
    Kind::BankLeft,
    Kind::BankRight,
    Kind::ArrowLeft,
    Kind::ArrowRight,
    Kind::ArrowUp,
    Kind::ArrowDown,
    Kind::Rewind,
    Kind::Forward,
    Kind::Stop,
    Kind::Play,
    Kind::Record,
];

impl Kind {
    // A method and no `From`: contracts say `number_of`, and a call reads the same.
    #[tactic(auto, using(crate::proofs::Laws::tag_number))]
    pub fn number(self) -> u8
        ensures { result ≡ number_of self }
    {
        self as u8
    }
}

// What the surface did. Channels count from 0; a fader's value is 0 to 1, an encoder's detents are negative to the left.
#[derive(Clone, Copy)]
pub enum Event {
    Fader { channel: u8, value: f64 },
    Encoder { channel: u8, delta: i32 },
    Button(Button),
    // Anything else.
    Other,
}

#[derive(Clone, Copy)]
pub struct Button {
    pub note: u8,
    pub pressed: bool,
}

// ── buttons ──

// The base that has the note among its eight.
fn base_of(note: u8) -> Option<usize>
    ensures { result ≡ base_of note }
{
    CHANNEL_BASES
        .iter()
        .position(|base| *base <= note && note - *base < 8)
}

// The named button that has the note.
fn named_of(note: u8) -> Option<usize>
    ensures { result ≡ named_of note }
{
    NAMED.iter().position(|named| *named == note)
}

impl Button {
    // Which channel a channel's button belongs to.
    #[tactic(auto, using(crate::proofs::Laws::base_at), unfolding(crate::specs::Protocol::channel_of))]
    pub fn channel(self) -> Option<u8>
        ensures { result ≡ channel_of self.note }
    {
        let k = base_of(self.note)?;
        Some(self.note - CHANNEL_BASES[k])
    }

    #[tactic(auto, using(crate::proofs::Laws::base_at, crate::proofs::Laws::named_at, crate::proofs::Laws::numbered), unfolding(crate::specs::Protocol::kind_of, crate::specs::Protocol::number_of))]
    pub fn kind(self) -> Kind
        ensures { number_of result ≡ kind_of self.note }
    {
        if let Some(k) = base_of(self.note) {
            return KINDS[k];
        }
        match named_of(self.note) {
            Some(k) => KINDS[k + 4],
            None => Kind::Unknown,
        }
    }
}

// The note of a kind that is one single button. The kind is the profile's number, a byte that may be no kind, so one match on the byte does.
#[tactic(auto, unfolding(crate::specs::Protocol::note_of))]
pub fn note_of(kind: u8) -> Option<u8>
    ensures { result ≡ note_of kind }
{
    match kind {
        4..=14 => Some(NAMED[(kind - 4) as usize]),
        _ => None,
    }
}

// The note that a transport button of the kind lights. The kind is the profile's number here too.
#[tactic(auto, unfolding(crate::specs::Protocol::transport_note))]
pub fn transport_note(kind: u8) -> Option<u8>
    ensures { result ≡ transport_note kind }
{
    match kind {
        0..=3 => Some(CHANNEL_BASES[kind as usize]),
        _ => note_of(kind),
    }
}

// ── messages in ──

// Relative: below 0x40 a turn to the right, else to the left.
fn turned(v: u8) -> i32
    ensures { result ≡ delta_of v }
{
    if v < 0x40 { v as i32 } else { 0x40 - v as i32 }
}

// Raw MIDI bytes to what the surface did.
#[tactic(auto, unfolding(crate::specs::Protocol::decode_of))]
pub fn decode(msg: &[u8]) -> Event
    ensures { result ≡ decode_of msg.now }
{
    match *msg {
        [status, lsb, msb, ..] if status / 16 == 0xE => {
            let raw = (msb % 128) as u16 * 128 + (lsb % 128) as u16;
            Event::Fader {
                channel: status % 16,
                value: float::fader_value(raw),
            }
        }
        [status, control, v, ..] if status / 16 == 0xB && VPOT <= control && control < VPOT + 8 => {
            Event::Encoder {
                channel: control - VPOT,
                delta: turned(v),
            }
        }
        [status, note, velocity, ..] if status / 16 == 0x9 => Event::Button(Button {
            note,
            pressed: velocity > 0,
        }),
        [status, note, ..] if status / 16 == 0x8 => Event::Button(Button {
            note,
            pressed: false,
        }),
        _ => Event::Other,
    }
}

// ── messages out ──

// What the bridge sends back to the surface.
#[derive(Clone, Copy)]
pub enum Out {
    // Light or clear a button's lamp.
    Led { note: u8, on: bool },
    // Where a fader should be. The fader has no motor: the surface blinks the channel's lamp until the fader stands there.
    Position { channel: u8, raw: u16 },
}

// How hard a lamp's note is struck: a lamp that is lit, or cleared.
fn velocity(on: bool) -> u8
    ensures { result ≡ velocity_of on }
{
    if on { ON } else { OFF }
}

impl Out {
    // What is written reads back.
    #[tactic(auto, unfolding(crate::specs::Protocol::bytes_of))]
    pub fn bytes(self) -> [u8; 3]
        ensures value { result ≡ bytes_of self }
        ensures result_value { decode_of result ≡ heard_of self }
    {
        match self {
            Out::Led { note, on } => [0x90, note, velocity(on)],
            Out::Position { channel, raw } => {
                [
                    0xE0 + channel % 16,
                    (raw % 128) as u8,
                    (raw / 128 % 256) as u8,
                ]
            }
        }
    }
}

pub fn led(note: u8, on: bool) -> Out
    ensures { result ≡ Out.Led note on }
{
    Out::Led { note, on }
}

pub fn fader_position(channel: u8, value: f64) -> Out
    ensures { result ≡ sent_to channel value }
{
    Out::Position {
        channel,
        raw: float::position(value),
    }
}

// Writes the three bytes of a message at the start of the part that is lent.
#[tactic(auto, using(crate::proofs::Laws::put_front))]
fn write_out(part: &mut [u8], out: Out)
    requires { 3 ≤ length part.old }
    ensures { part.new ≡ at_front (bytes_of out) part.old }
{
    part[..3].copy_from_slice(&out.bytes());
}

// Two writers, of a lamp and of a position: a rule of the project lends the tail of the message buffer to one or the other.
// A lamp, at the start of the part of the message buffer that is lent.
pub fn write_led(part: &mut [u8], note: u8, on: bool)
    requires { 3 ≤ length part.old }
    ensures { part.new ≡ at_front (bytes_of (Out.Led note on)) part.old }
{
    write_out(part, led(note, on));
}

// A fader's position, at the start of the part of the message buffer that is lent.
pub fn write_position(part: &mut [u8], channel: u8, value: f64)
    requires { 3 ≤ length part.old }
    ensures { part.new ≡ at_front (bytes_of (sent_to channel value)) part.old }
{
    write_out(part, fader_position(channel, value));
}
