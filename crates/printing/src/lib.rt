#![tactic(auto)]

// What the programs write. Each text of `specs/Text` has a type here: what it puts is the definition's bytes, whatever sink takes them. `Held` is a
// sink that hands on to the one behind it what it was given, whatever sink that is, and `Stdout` is that over the system.
mod lines;
mod stdout;
#[cfg(test)]
mod tests;
mod text;
mod wire;

ghost use Rattle.std.specs.Fmt.{WritesInCalls};
ghost use Rattle.printing.specs.Text.{decimal, bits, word, level, hex as hex_of};

pub use lines::{Counts, ProfileRefused, Refused, Step, Waiting};
pub use stdout::{Held, Stdout, System};
pub use text::{Printed, Sink, Text};
pub use wire::{CallLine, Calls, MessageLine, Messages, kind_name};

fn put_decimal<S: Sink>(n: u64, out: &mut S)
    ensures { WritesInCalls S.takes out.old (decimal n) out.new }
{
    let mut digits = [0u8; 20];
    let k = io::decimal(n, &mut digits);
    out.take(&digits[..k]);
}

// The sixteen hexadecimal digits of a number.
fn put_bits<S: Sink>(n: u64, out: &mut S)
    ensures { WritesInCalls S.takes out.old (bits n) out.new }
{
    let mut digits = [0u8; 16];
    let k = io::hex(n, 16, &mut digits);
    out.take(&digits[..k]);
}

// A space and a decimal number.
#[derive(Clone, Copy)]
pub struct Word(pub u64);

impl Text for Word {
    ghost text = { λ w. word w.0 };

    fn put<S: Sink>(&self, out: &mut S) {
        " ".put(out);
        put_decimal(self.0, out);
    }
}

// A space and the sixteen hexadecimal digits of a number.
#[derive(Clone, Copy)]
pub struct Level(pub u64);

impl Text for Level {
    ghost text = { λ l. level l.0 };

    fn put<S: Sink>(&self, out: &mut S) {
        " ".put(out);
        put_bits(self.0, out);
    }
}

// Two hexadecimal digits for each byte.
#[derive(Clone, Copy)]
pub struct Hex<'a>(pub &'a [u8]);

impl Text for Hex<'_> {
    ghost text = { λ h. hex_of h.0.now };

    #[tactic(auto, unfolding(crate::specs::Text::hex))]
    fn put<S: Sink>(&self, out: &mut S) {
        for b in self.0 {
            let mut digits = [0u8; 16];
            let k = io::hex(u64::from(*b), 2, &mut digits);
            out.take(&digits[..k]);
        }
    }
}
