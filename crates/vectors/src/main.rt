#![tactic(auto)]

// Runs the codec over messages and prints what each says and what is sent back for it. The input has a message to a line, in hexadecimal; what
// follows a '#' is a remark, and a line that starts with one is no message.
//
// A line is written piece by piece as its message is read, by crate io, which formats a number in a buffer of fixed size. Nothing is proved of the text, so that
// a type for each line that is displayed, as in crate printing, would be no plainer.
use protocol::{Button, Event};

const STDOUT_FILENO: i32 = 1;

// Where the reader stands: at a line's start, in its message, behind that, or in a line that is a remark.
#[derive(Clone, Copy, PartialEq, Eq)]
enum Place {
    Start,
    Message,
    Behind,
    Remark,
}

// What was read of a line: the digits of its message, and where the reader stands. There is no heap: the bytes are an array, with how many digits are read.
#[derive(Drop)]
struct Line {
    bytes: [u8; 3],
    digits: usize,
    place: Place,
}

fn say(text: &[u8]) {
    io::write_all(STDOUT_FILENO, text);
}

fn say_number(n: u8) {
    io::print_decimal(STDOUT_FILENO, u64::from(n));
}

fn say_byte(b: u8) {
    io::print_hex(STDOUT_FILENO, u64::from(b), 2);
    say(b" ");
}

fn say_bytes(b: [u8; 3]) {
    say(b" sends ");
    say_byte(b[0]);
    say_byte(b[1]);
    io::print_hex(STDOUT_FILENO, u64::from(b[2]), 2);
}

fn say_delta(delta: i32) {
    if delta < 0 {
        say(b" left ");
    } else {
        say(b" right ");
    }
    io::print_decimal(STDOUT_FILENO, u64::from(delta.unsigned_abs()));
}

fn say_channel(button: Button) {
    if let Some(c) = button.channel() {
        say(b" channel ");
        say_number(c);
    }
}

fn say_note(kind: u8) {
    if let Some(n) = protocol::transport_note(kind) {
        say(b" lights ");
        io::print_hex(STDOUT_FILENO, u64::from(n), 2);
    }
}

// A button, and its lamp lit while it is pressed.
fn say_button(button: Button) {
    let Button { note, pressed } = button;
    let kind = button.kind().number();
    say(b"button kind ");
    say_number(kind);
    say_channel(button);
    say_note(kind);
    if pressed {
        say(b" pressed");
    } else {
        say(b" released");
    }
    say_bytes(protocol::led(note, pressed).bytes());
}

fn say_event(event: Event) {
    match event {
        Event::Fader { channel, value } => {
            say(b"fader ");
            say_number(channel);
            say(b" value ");
            io::print_hex(STDOUT_FILENO, float::to_bits(value), 16);
            say_bytes(protocol::fader_position(channel, value).bytes());
        }
        Event::Encoder { channel, delta } => {
            say(b"encoder ");
            say_number(channel);
            say_delta(delta);
        }
        Event::Button(button) => say_button(button),
        Event::Other => say(b"other"),
    }
}

// The value of a hexadecimal digit.
fn digit(b: u8) -> Option<u8> {
    match b {
        b'0'..=b'9' => Some(b - b'0'),
        b'a'..=b'f' => Some(b - b'a' + 10),
        _ => None,
    }
}

impl Line {
    fn fresh() -> Line {
        Line {
            bytes: [0; 3],
            digits: 0,
            place: Place::Start,
        }
    }

    // The message of the line, read by the codec.
    fn show(&self) {
        if let Some(message) = self.bytes.get(..self.digits / 2) {
            say_event(protocol::decode(message));
        }
        say(b"\n");
    }

    // One digit more of the message; past its third byte it is passed over.
    fn take(&mut self, d: u8) {
        if let Some(b) = self.bytes.get_mut(self.digits / 2) {
            *b = *b % 16 * 16 + d % 16;
            self.digits += 1;
        }
    }

    fn turn(&mut self, b: u8) {
        match (b, self.place) {
            (b'\n', place) => {
                if place != Place::Remark {
                    self.show();
                }
                *self = Line::fresh();
            }
            (b'#', Place::Start) => self.place = Place::Remark,
            (b'#', _) => self.place = Place::Behind,
            (_, Place::Behind | Place::Remark) => {}
            (_, Place::Start | Place::Message) => {
                self.place = Place::Message;
                if let Some(d) = digit(b) {
                    self.take(d);
                }
            }
        }
    }
}

fn read_lines(text: &[u8]) {
    let mut line = Line::fresh();
    for b in text {
        line.turn(*b);
    }
}

fn main() {
    let mut text = io::large_buffer();
    let n = io::read_full(0, &mut text);
    read_lines(&text[..n]);
}
