// The players that were met: the core has no heap, so that the list is an array and how many of its places are taken.
// It is a list of its own, as the added targets of crate solos are: one list for both would be an array of a parameter's type, which is refused.
ghost use Rattle.std.specs.Prelude.{◌≡◌, ◌∷◌, [], ◌++◌, ◌<◌, ◌≤◌, List, map, length, take, find as std_find};
ghost use Rattle.std.specs.Option.{option_map};
ghost use Rattle.base.specs.Keyed.{find};
ghost use Rattle.definition.specs.Lamps.{Player as Known, is_player, met};
ghost use Rattle.transport.specs.Known.{known_as};

use lookup::Command;
use std::marker::Model;

// A player, and whether it said yes or no.
#[derive(Clone, Copy)]
struct Player {
    driver: u8,
    target: u16,
    there: bool,
}

#[derive(Drop)]
pub struct Players {
    list: [Player; 32],
    count: usize,
}

impl Model for Players {
    ghost Value = { List Known };

    ghost view = { λ p. map known_as (take p.count p.list) };

    ghost invariant = { λ p. p.count ≤ 32 };
}

fn is_player(p: Player, c: Command) -> bool
    ensures { result ≡ is_player c (known_as p) }
{
    p.driver == c.driver && p.target == c.target
}

fn player_of(met: &[Player], c: Command) -> Option<Player>
    ensures { result ≡ std_find (λ p. is_player c (known_as p)) met.now }
{
    met.iter().copied().find(|p| is_player(*p, c))
}

impl Players {
    pub fn none() -> Players
        ensures { result ≡ [] }
    {
        let nobody = Player {
            driver: 0,
            target: 0,
            there: false,
        };
        Players {
            list: [nobody; 32],
            count: 0,
        }
    }

    // Whether the command's player is there, if it was met.
    pub fn answer(&self, c: Command) -> Option<bool>
        ensures { result ≡ option_map (λ p. p.there) (find (is_player c) self.now) }
    {
        player_of(&self.list[..self.count], c).map(|p| p.there)
    }

    // One more, behind the others.
    pub fn meet(&mut self, c: Command, there: bool)
        requires { length self.old < 32 }
        ensures { self.new ≡ self.old ++ (met c there ∷ []) }
    {
        self.list[self.count] = Player {
            driver: c.driver,
            target: c.target,
            there,
        };
        self.count += 1;
    }
}
