// Number 3: kinds, banks and numbers stand in the order that the lookups count on. Number 4: there is a bank.
ghost use Rattle.std.specs.Prelude.{◌≡◌, true, false, ◌&&◌, cond, ◌+◌, ◌<◌, ◌≤◌, eqb, Some, None};
ghost use Rattle.base.specs.Range.{all};
ghost use Rattle.profile.specs.Profile.{records, kind_count, bank_count, ordered_at, control, once_each, fields_ok, order_ok, banks_ok};
ghost use Rattle.profile.specs.Order.{leads_at, follows_at, slot_at};
ghost use Rattle.profile.specs.Refusal.{verdict_of};

use crate::Refusal;
use crate::record::{Record, count};

impl Record<'_> {
    // A record of kind 0 or 1 stands where it may: first the settings, then the banks from 0 on.
    fn leads(self) -> bool
        ensures { result ≡ leads_at self.entry.profile.now self.entry.k }
    {
        let kind = self.kind();
        let bank = usize::from(self.part());
        ((self.k == 0) & (kind == 0)) | ((kind == 1) & (bank + 1 == self.k))
    }

    // A record behind all banks and one of kind `last` stands where it may, and the bank that it names is there.
    fn follows(self, last: u8, banks: usize) -> bool
        ensures { result ≡ follows_at self.entry.profile.now self.entry.k last banks }
    {
        let kind = self.kind();
        let bank = usize::from(self.part());
        (last <= kind) & ((5 < kind) | (bank == 255) | (bank < banks))
    }

    // Where the table of `once_each` keeps the record: a kind, a bank and a number have a place of their own.
    fn slot(self) -> usize
        ensures { (result ≡ slot_at self.entry.profile.now self.entry.k) × (result < 1024) }
    {
        let kind = usize::from(self.kind());
        let bank = usize::from(self.part());
        let number = usize::from(self.number());
        kind % 2 * 512 + (bank % 32 * 16 + number % 16)
    }
}

// How many records lead the file: where the first stands that does not.
fn leading(profile: &[u8]) -> usize
    ensures in_file { result ≤ records profile.now }
    ensures lead { all result (leads_at profile.now) ≡ true }
    ensures stops { result < records profile.now → leads_at profile.now result ≡ false }
{
    (0..count(profile))
        .take_while(|k| Record::at(profile, *k).leads())
        .count()
}

// Where the records behind the banks start, if the settings are there once and every record stands where it may.
// As kinds never fall, the settings and the banks come first and are counted by where they end, and what comes behind them needs no count.
fn ordered(profile: &[u8]) -> Option<usize>
    ensures { result ≡ cond (eqb (kind_count profile.now 0) 1 && all (records profile.now) (ordered_at profile.now)) (Some (bank_count profile.now + 1)) None }
{
    let from = leading(profile);
    if from == 0 {
        return None;
    }
    let mut last: u8 = 2;
    for k in from..count(profile) {
        let here = Record::at(profile, k);
        if !here.follows(last, from - 1) {
            return None;
        }
        last = here.kind();
    }
    Some(from)
}

#[tactic(auto, unfolding(crate::specs::Profile::control))]
pub fn is_control(kind: u8) -> bool
    ensures { result ≡ control kind }
{
    matches!(kind, 2 | 3)
}

// As kinds never fall, the first record of kind 4 or more ends the faders and encoders. There is no heap: what was seen stands in a table of fixed size.
fn once_each(profile: &[u8]) -> bool
    requires { (fields_ok profile.now ≡ true) × (all (records profile.now) (ordered_at profile.now) ≡ true) }
    ensures { result ≡ once_each profile.now }
{
    let mut seen = [false; 1024];
    for k in 0..count(profile) {
        let here = Record::at(profile, k);
        let kind = here.kind();
        if 3 < kind {
            return true;
        }
        if is_control(kind) {
            let slot = here.slot();
            if seen[slot] {
                return false;
            }
            seen[slot] = true;
        }
    }
    true
}

#[tactic(auto, unfolding(crate::specs::Profile::order_ok, base::specs::Range::every))]
pub fn examine(profile: &[u8]) -> Result<(), Refusal>
    requires { fields_ok profile.now ≡ true }
    ensures { verdict_of result ≡ cond (order_ok profile.now) (cond (banks_ok profile.now) 0 4) 3 }
{
    let behind = ordered(profile).ok_or(Refusal::Order)?;
    if !once_each(profile) {
        return Err(Refusal::Order);
    }
    if behind == 1 {
        return Err(Refusal::Banks);
    }
    Ok(())
}
