// The edits: each works out the new list, sees whether every sheet fits, and then draws the sheets of the pairs that its rule covers.
ghost use Rattle.std.specs.Prelude.{◌≡◌, true, Ok};
ghost use Rattle.rules.specs.Elsewhere.{AlikeElsewhere};
ghost use Rattle.table.specs.Held.{held};
ghost use Rattle.ruleset.specs.Registers.{insert_edit, remove_edit, move_edit, switch_edit};
ghost use Rattle.ruleset.specs.Views.{register_of, Edited};

use crate::Ruleset;
use refusal::Refusal;
use rules::{Rule, Scope};
use table::RuleTable;

impl<'a> Ruleset<'a> {
    // Makes `next` the rules if every sheet fits. It differs from the rules only for the pairs of the scope.
    fn settle(&mut self, next: RuleTable, scope: &Scope) -> Result<(), Refusal>
        requires ready { self.old.ready ≡ true }
        requires elsewhere { AlikeElsewhere scope.now (held self.old.rules) (held next) }
        ensures { Edited self.old self.new (Ok (held next)) result }
    {
        if !self.sheets.strips().fit(next.rules(), scope) {
            return Err(Refusal::SheetTooLong);
        }
        self.sheets.draw(next.rules(), scope);
        self.rules = next;
        Ok(())
    }

    // Puts a rule in at a position, from 0 to the number of rules.
    pub fn insert(&mut self, position: usize, rule: Rule) -> Result<(), Refusal>
        ensures { Edited self.old self.new (insert_edit (register_of self.old) position rule) result }
    {
        self.check_rule(position, &rule)?;
        let mut next = self.rules;
        next.insert(position, rule);
        self.settle(next, &rule.scope())
    }

    // Takes the rule with this id out.
    pub fn remove(&mut self, id: u16) -> Result<(), Refusal>
        ensures { Edited self.old self.new (remove_edit (register_of self.old) id) result }
    {
        let i = self.place_of(id)?;
        let mut next = self.rules;
        let rule = next.remove(i);
        self.settle(next, &rule.scope())
    }

    // Takes the rule with this id out and puts it back at a position below the number of rules, counted in the list without it.
    pub fn move_to(&mut self, id: u16, position: usize) -> Result<(), Refusal>
        ensures { Edited self.old self.new (move_edit (register_of self.old) id position) result }
    {
        let i = self.place_of(id)?;
        if position >= self.rules.len() {
            return Err(Refusal::PositionTooHigh);
        }
        let rule = self.rules.at(i);
        let mut next = self.rules;
        next.move_to(i, position);
        self.settle(next, &rule.scope())
    }

    // Sets the rule with this id on or off.
    pub fn switch(&mut self, id: u16, on: bool) -> Result<(), Refusal>
        ensures { Edited self.old self.new (switch_edit (register_of self.old) id on) result }
    {
        let i = self.place_of(id)?;
        let rule = self.rules.at(i);
        let mut next = self.rules;
        next.switch(i, on);
        self.settle(next, &rule.scope())
    }
}
