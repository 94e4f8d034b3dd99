#![tactic(auto)]

// The f64 leaves of the bridge, for every f64: each is an equation with a definition of specs/Leaf.antt, and none asks anything of a value.
ghost use Rattle.std.specs.Prelude.{◌≡◌, ◌+◌, ◌≤◌, length, from_bits, to_bits};
ghost use Rattle.std.specs.Float.{binary64};
ghost use Rattle.base.specs.Words.{le64};
ghost use Rattle.float.specs.Leaf.{value_of, position_of, ComesBack, abs_of, clamp_of, normalise, range_of, far_of, crossed_of, nudge, same_range, due_of, flash_over};

// ── fader positions ──

// The value of a raw position, 0 to 1 for 0 to 16383.
pub fn fader_value(raw: u16) -> f64
    ensures { result ≡ value_of raw }
{
    raw as f64 / 16383.0
}

// The product with 16383 to the nearest whole number, halves up, held in 0 to 16383; a NaN gives 0. The rounding is worked out from the bits:
// 1022 in the exponent's field is a half up to one, 1036 is 8192 up to 16384. Every raw position, decoded and sent, comes back.
// A rule of the project: the position is worked out from the bits, and not by `round` and a cast.
pub fn position(value: f64) -> u16
    ensures value { result ≡ position_of value }
    ensures comes_back { ComesBack value result }
{
    let x = value * 16383.0;
    if x.is_nan() {
        return 0;
    }
    let bits = x.to_bits();
    if 0x8000_0000_0000_0000 <= bits {
        return 0;
    }
    let exponent = bits / 0x10_0000_0000_0000;
    if exponent < 1022 {
        return 0;
    }
    if 1036 < exponent {
        return 16383;
    }
    let digits = bits % 0x10_0000_0000_0000 + 0x10_0000_0000_0000;
    // x is digits / 2 ^ (1075 - exponent), so this is twice x, cut to a whole number
    let twice = digits >> (1074 - exponent);
    let nearest = (twice + 1) / 2;
    nearest.min(16383) as u16
}

// ── levels ──

pub fn abs(x: f64) -> f64
    ensures { result ≡ abs_of x }
{
    x.abs()
}

// Held in 0 to 1.
#[tactic(auto, unfolding(crate::specs::Leaf::clamp_of))]
pub fn clamp(x: f64) -> f64
    ensures { result ≡ clamp_of x }
{
    x.clamp(0.0, 1.0)
}

// A device's level as the fader sees it: the destination's range mapped back onto the full travel.
pub fn normalised(low: f64, high: f64, raw: f64) -> f64
    ensures { result ≡ normalise low high raw }
{
    clamp((raw - low) / (high - low))
}

// A fader's value as the device takes it.
pub fn ranged(low: f64, high: f64, value: f64) -> f64
    ensures { result ≡ range_of low high value }
{
    low + value * (high - low)
}

// Too far from the device's level to take over.
pub fn far(value: f64, c: f64) -> bool
    ensures { result ≡ far_of value c }
{
    abs(value - c) > 0.02
}

// The last move and this one lie on two sides of the device's level.
pub fn crossed(p: f64, c: f64, value: f64) -> bool
    ensures { result ≡ crossed_of p c value }
{
    (p - c) * (value - c) < 0.0
}

// A level moved by a sum of detents, each a 64th.
pub fn nudged(current: f64, sum: i32) -> f64
    ensures { result ≡ nudge current sum }
{
    clamp(current + sum as f64 * 0.015625)
}

// A definition has this leaf by name, over two pairs of ends and no type of a range; no code calls it.
pub fn same_range(low: f64, high: f64, low2: f64, high2: f64) -> bool
    ensures { result ≡ same_range low high low2 high2 }
{
    low == low2 && high == high2
}

// ── the flash ──

// How many phases of a flash are due, 0 to 6. The cast cuts to a whole number and takes what is below zero to 0, so that floor and max need no work of their own.
pub fn due(now: f64, start: f64) -> u32
    ensures { result ≡ due_of now start }
{
    std::num::saturating_f64_to_u32((now - start) / 0.12)
        .wrapping_add(1)
        .min(6)
}

pub fn flash_over(now: f64, start: f64) -> bool
    ensures { result ≡ flash_over now start }
{
    now - start >= 2.0 * 3.0 * 0.12
}

// ── bytes ──

// The f64 of a bit pattern; every NaN pattern gives the one NaN.
pub fn of_bits(n: u64) -> f64
    ensures { result ≡ from_bits binary64 n }
{
    std::num::f64_from_bits_with_nan(n)
}

// The bit pattern of an f64; a NaN is written as 0x7FF8000000000000.
pub fn to_bits(x: f64) -> u64
    ensures { result ≡ to_bits binary64 x }
{
    std::num::f64_to_bits_with_nan(x)
}

// The f64 in the eight bytes from `at` on.
pub fn read_f64(s: &[u8], at: usize) -> f64
    requires { at + 8 ≤ length s.now }
    ensures { result ≡ from_bits binary64 (le64 s.now at) }
{
    of_bits(base::read_u64(s, at))
}
