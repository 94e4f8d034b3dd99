// Number 5: not more scenes, transports and buttons than the bridge has room for.
ghost use Rattle.std.specs.Prelude.{◌≡◌, true, ◌+◌, ◌<◌, ◌≤◌, length};
ghost use Rattle.profile.specs.Profile.{fields_ok, limits_ok};
ghost use Rattle.profile.specs.Limits.{counted, row_at, all_at_most};

use crate::record::{Record, count};

// The 256 counts from `from` on are at most the limit. `&` looks at all of them, as in `fields`.
fn all_at_most(table: &[u16; 1024], from: usize, limit: u16) -> bool
    requires { from + 256 ≤ 1024 }
    ensures { result ≡ all_at_most table.now from limit }
{
    table[from..from + 256]
        .iter()
        .fold(true, |ok, n| ok & (*n <= limit))
}

#[tactic(auto, unfolding(crate::specs::Limits::counted))]
fn is_counted(kind: u8) -> bool
    ensures { result ≡ counted kind }
{
    matches!(kind, 4..=6)
}

impl Record<'_> {
    // Where the table of `limits_ok` counts the record: each kind has a row, with a place for each byte 1.
    fn row(self) -> usize
        ensures { (result ≡ row_at self.entry.profile.now self.entry.k) × (result < 1024) }
    {
        usize::from(self.kind()) % 4 * 256 + usize::from(self.part())
    }
}

// There is no heap: the counts stand in a table of fixed size.
pub fn limits_ok(profile: &[u8]) -> bool
    requires { (length profile.now ≤ 65536) × (fields_ok profile.now ≡ true) }
    ensures { result ≡ limits_ok profile.now }
{
    let mut table = [0u16; 1024];
    for k in 0..count(profile) {
        let here = Record::at(profile, k);
        if is_counted(here.kind()) {
            table[here.row()] += 1;
        }
    }
    all_at_most(&table, 0, 128) & all_at_most(&table, 256, 16) & all_at_most(&table, 512, 16)
}
