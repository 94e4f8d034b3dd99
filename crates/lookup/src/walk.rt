// The records that a lookup goes over. "Kinds never fall through the file", so none of a kind comes behind the first of a higher one.
ghost use Rattle.std.specs.Prelude.{◌≡◌, ◌-◌, ◌≤◌, List, None, filter, length};
ghost use Rattle.std.specs.Iterator.{YieldsFirstBy, item_count};
ghost use Rattle.base.specs.First.{first};
ghost use Rattle.profile.specs.Profile.{records};
ghost use Rattle.lookup.specs.Lookup.{is_past, reach, of_part};
ghost use Rattle.lookup.specs.Rows.{Row, row_of, rows, of, rows_of};

use profile::record::{self, Record};
use std::marker::Model;

// A walk, in file order, over the records before the first of a higher kind.
#[derive(Drop)]
pub struct UpTo<'a> {
    profile: &'a [u8],
    kind: u8,
    k: usize,
}

// It is seen as the records that are left.
impl<'a> Model for UpTo<'a> {
    ghost Value = { List Row };

    ghost view = { λ u. rows u.profile.now u.k (reach u.profile.now u.kind - u.k) };

    ghost invariant = { λ u. first u.k (is_past u.profile.now u.kind) ≡ None };
}

pub fn up_to(profile: &[u8], kind: u8) -> UpTo
    ensures { result ≡ rows profile.now 0 (reach profile.now kind) }
{
    UpTo {
        profile,
        kind,
        k: 0,
    }
}

impl<'a> Iterator for UpTo<'a> {
    type Item = Record<'a>;

    ghost next_gives = { YieldsFirstBy row_of (λ left. left) };

    ghost remaining = { item_count (λ left. left) };

    fn next(&mut self) -> Option<Record<'a>> {
        if self.k >= record::count(self.profile) {
            return None;
        }
        let row = Record::at(self.profile, self.k);
        if self.kind < row.kind() {
            return None;
        }
        self.k += 1;
        Some(row)
    }
}

fn belongs(row: Record, kind: u8, part: u8) -> bool
    ensures { result ≡ of_part row.entry.profile.now kind part row.entry.k }
{
    row.kind() == kind && row.part() == part
}

// A walk, in file order, over the records of a kind that belong to a part.
#[derive(Drop)]
pub struct OfPart<'a> {
    walk: UpTo<'a>,
    kind: u8,
    part: u8,
}

impl<'a> Model for OfPart<'a> {
    ghost Value = { List Row };

    ghost view = { λ w. filter (of w.kind w.part) w.walk };
}

pub fn of_part(profile: &[u8], kind: u8, part: u8) -> OfPart
    ensures value { result ≡ rows_of profile.now kind part }
    ensures few { length result ≤ records profile.now }
{
    OfPart {
        walk: up_to(profile, kind),
        kind,
        part,
    }
}

impl<'a> Iterator for OfPart<'a> {
    type Item = Record<'a>;

    ghost next_gives = { YieldsFirstBy row_of (λ left. left) };

    ghost remaining = { item_count (λ left. left) };

    fn next(&mut self) -> Option<Record<'a>> {
        let kind = self.kind;
        let part = self.part;
        self.walk.find(|row| belongs(*row, kind, part))
    }
}
