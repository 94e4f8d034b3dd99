// What the programs write of an event.
ghost use Rattle.printing.specs.Text.{step_words, count_words, profile_line, refused_line, waiting_lines};

use crate::{CallLine, Sink, Text, Word};
use drivers::Call;

// What begins a line: what it is of, which can be any text or any bytes, and its number.
#[derive(Clone, Copy)]
pub struct Step<W> {
    pub what: W,
    pub n: usize,
}

impl<W: Text> Text for Step<W> {
    ghost text = { λ s. step_words (W.text s.what) s.n };

    fn put<S: Sink>(&self, out: &mut S) {
        self.what.put(out);
        Word(self.n as u64).put(out);
    }
}

// How many messages and calls a done event has, with no end of the line.
#[derive(Clone, Copy)]
pub struct Counts {
    pub messages: usize,
    pub calls: usize,
}

impl Text for Counts {
    ghost text = { λ c. count_words c.messages c.calls };

    #[tactic(auto, unfolding(crate::specs::Text::count_words))]
    fn put<S: Sink>(&self, out: &mut S) {
        " done messages".put(out);
        Word(self.messages as u64).put(out);
        " calls".put(out);
        Word(self.calls as u64).put(out);
    }
}

// The line of a profile that is refused, with the cause.
#[derive(Clone, Copy)]
pub struct ProfileRefused(pub u8);

impl Text for ProfileRefused {
    ghost text = { λ p. profile_line p.0 };

    #[tactic(auto, unfolding(crate::specs::Text::profile_line))]
    fn put<S: Sink>(&self, out: &mut S) {
        "profile refused".put(out);
        Word(u64::from(self.0)).put(out);
        "\n".put(out);
    }
}

// A step that was refused: an event or a restore.
#[derive(Clone, Copy)]
pub struct Refused<W> {
    pub step: Step<W>,
    pub why: u8,
}

impl<W: Text> Text for Refused<W> {
    ghost text = { λ r. refused_line (W.text r.step.what) r.step.n r.why };

    #[tactic(auto, unfolding(crate::specs::Text::refused_line))]
    fn put<S: Sink>(&self, out: &mut S) {
        self.step.put(out);
        " refused".put(out);
        Word(u64::from(self.why)).put(out);
        "\n".put(out);
    }
}

// An event that waits for the answer to a call.
#[derive(Clone, Copy)]
pub struct Waiting {
    pub n: usize,
    pub call: Call,
}

impl Text for Waiting {
    ghost text = { λ w. waiting_lines w.n w.call };

    #[tactic(auto, unfolding(crate::specs::Text::waiting_lines))]
    fn put<S: Sink>(&self, out: &mut S) {
        let what = "event";
        Step { what, n: self.n }.put(out);
        " waiting\n".put(out);
        CallLine(self.call).put(out);
    }
}
