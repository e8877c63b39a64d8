// Comparing the sheets of two tables.
ghost use Rattle.std.specs.Prelude.{◌≡◌, false, List, Decides, ◌≢◌};
ghost use Rattle.rules.specs.declared.rule.Rule.{Rule};
ghost use Rattle.sheets.specs.Strips.{Right};
ghost use Rattle.sheets.specs.Listed.{ListsAlike};
ghost use Rattle.sheets.specs.Tables.{HasStrips};

use crate::Strips;
use crate::pairs::Pairs;
use line::{line_of, same_runs};

impl<'a> Strips<'a> {
    // Whether two tables list the same runs for every pair, where both hold the sheets of some rules. With other numbers of networks they have other pairs, and do not.
    pub fn list_like(&self, other: &Strips<'_>) -> bool
        requires strips { HasStrips self.now.networks self.now.depth self.now.rows.now }
        requires strips_too { HasStrips other.now.networks other.now.depth other.now.rows.now }
        ensures other_pairs { (self.now.networks ≢ other.now.networks) → result ≡ false }
        ensures runs { self.now.networks ≡ other.now.networks → (a b : List Rule) → Right a self.now.networks self.now.depth self.now.rows.now → Right b self.now.networks other.now.depth other.now.rows.now → Decides result (ListsAlike a b self.now.networks self.now.depth self.now.rows.now other.now.depth other.now.rows.now) }
    {
        if self.networks != other.networks {
            return false;
        }
        for pair in Pairs::new(self.networks) {
            let runs = line_of(self.strip_of(pair));
            let others = line_of(other.strip_of(pair));
            if !same_runs(runs, others) {
                return false;
            }
        }
        true
    }
}
