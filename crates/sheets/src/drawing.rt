// Whether the sheets fit their strips, and drawing them. Only the pairs of a scope are looked at: the others are known to be right.
ghost use Rattle.std.specs.Prelude.{◌≡◌, ◌*◌, ◌≤◌, true, length};
ghost use Rattle.sheets.specs.Strips.{pair_needs, pairs_of, fits_all, Right};
ghost use Rattle.sheets.specs.Scopes.{FitElsewhere, DrawnElsewhere};
ghost use Rattle.sheets.specs.Tables.{HasStrips, HasPair, DrawsPair};

use crate::pairs::Pairs;
use crate::row::blank_row;
use crate::{Sheets, Strips};
use line::{draw_over, needed};
use rules::{Decisions, Pair, Rule, Scope};

impl<'a> Strips<'a> {
    // Whether the line of every pair has at most `depth` runs, where those of the pairs that are not in the scope do.
    pub fn fit(&self, rules: &[Rule], scope: &Scope) -> bool
        requires { FitElsewhere scope.now rules.now self.now.networks self.now.depth }
        ensures { result ≡ fits_all rules.now self.now.networks self.now.depth }
    {
        for pair in Pairs::new(self.networks) {
            if scope.has(pair) && needed(&Decisions::new(rules, pair), self.depth).is_none() {
                return false;
            }
        }
        true
    }
}

impl<'a> Sheets<'a> {
    // Draws the line of a pair into its strip.
    fn draw_pair(&mut self, rules: &[Rule], pair: Pair)
        requires strips { HasStrips self.old.networks self.old.depth self.old.rows.now }
        requires inside { HasPair self.old.networks pair }
        requires fits { pair_needs rules.now pair.from pair.to ≤ self.old.depth }
        ensures drawn { DrawsPair rules.now pair self.old self.new }
        ensures lent { self.new.rows.ghost_name ≡ self.old.rows.ghost_name }
    {
        let start = self.strips().start_of(pair);
        let strip = &mut self.rows[start..start + self.depth];
        draw_over(strip, &Decisions::new(rules, pair), blank_row());
    }

    // Draws the line of every pair into its strip, where the strips of the pairs that are not in the scope hold theirs.
    pub fn draw(&mut self, rules: &[Rule], scope: &Scope)
        requires fits { fits_all rules.now self.old.networks self.old.depth ≡ true }
        requires long { length self.old.rows.now ≡ pairs_of self.old.networks * self.old.depth }
        requires drawn { DrawnElsewhere scope.now rules.now self.old.networks self.old.depth self.old.rows.now }
        ensures right { Right rules.now self.new.networks self.new.depth self.new.rows.now }
        ensures networks { self.new.networks ≡ self.old.networks }
        ensures depth { self.new.depth ≡ self.old.depth }
        ensures lent { self.new.rows.ghost_name ≡ self.old.rows.ghost_name }
    {
        for pair in Pairs::new(self.networks) {
            if scope.has(pair) {
                self.draw_pair(rules, pair);
            }
        }
    }
}
