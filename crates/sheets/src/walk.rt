// Going through the pairs.
ghost use Rattle.std.specs.Prelude.{◌-◌};
ghost use Rattle.std.specs.Iterator.{at_most};
ghost use Rattle.sheets.specs.Strips.{pairs_of};
ghost use Rattle.sheets.specs.Walks.{given, GivesPair};

use crate::pairs::Pairs;
use rules::Pair;

impl Iterator for Pairs {
    type Item = Pair;

    ghost next_gives = { GivesPair };

    ghost remaining = { λ s. at_most (pairs_of s.networks - given s) };

    fn next(&mut self) -> Option<Pair> {
        let pair = self.next?;
        self.next = if pair.to < self.networks {
            Some(Pair {
                from: pair.from,
                to: pair.to + 1,
            })
        } else if pair.from < self.networks {
            Some(Pair {
                from: pair.from + 1,
                to: 0,
            })
        } else {
            None
        };
        Some(pair)
    }
}
