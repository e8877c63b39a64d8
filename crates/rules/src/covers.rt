// What a rule covers.
ghost use Rattle.std.specs.Prelude.{◌≡◌, ◌&&◌};
ghost use Rattle.rules.specs.Decisions.{in_force, covers_pair, scope_of};

use crate::{Pair, Rule, Scope};

impl Rule {
    // Whether the rule is in force.
    pub fn is_in_force(&self) -> bool
        ensures { result ≡ in_force self.now }
    {
        self.on
    }

    // Whether the rule covers the pair.
    pub fn covers(&self, pair: Pair) -> bool
        ensures { result ≡ covers_pair self.now pair.from pair.to }
    {
        self.scope().has(pair)
    }

    // The pairs that the rule covers.
    pub fn scope(&self) -> Scope
        ensures { result ≡ scope_of self.now }
    {
        Scope {
            from: self.from,
            to: self.to,
        }
    }

    // Whether the rule is in force and covers the pair.
    pub fn applies(&self, pair: Pair) -> bool
        ensures { result ≡ (in_force self.now && covers_pair self.now pair.from pair.to) }
    {
        self.is_in_force() && self.covers(pair)
    }
}
