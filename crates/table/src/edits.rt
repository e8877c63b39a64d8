// What the table tells of its rules, and the edits of one of them.
ghost use Rattle.std.specs.Prelude.{◌≡◌, ◌<◌, ◌≤◌, [], length, slice_index_or};
ghost use Rattle.std.specs.List.{insert, remove};
ghost use Rattle.rules.specs.declared.rule.Rule.{Rule};
ghost use Rattle.table.specs.Limits.{most_rules};
ghost use Rattle.table.specs.Held.{held, position, moved, switched_at};

use crate::RuleTable;
use few::Few;
use rules::{Action, Rule};
use service::Span;

// Four functions ask for a position inside the list. A type of positions is no plainer: a position is good for one list only, so that the type would have to name the list.
impl RuleTable {
    // A table without rules.
    pub fn new() -> RuleTable
        ensures { held result ≡ [] }
    {
        let unused = Rule {
            id: 0,
            action: Action::Deny,
            from: None,
            to: None,
            span: Span::all(),
            on: false,
        };
        RuleTable {
            rules: Few::new(unused),
        }
    }

    // How many rules there are.
    pub fn len(&self) -> usize
        ensures value { result ≡ length (held self.now) }
        ensures most { result ≤ most_rules }
    {
        self.rules.len()
    }

    // The rules, in their order.
    pub fn rules(&self) -> &[Rule]
        ensures { result.now ≡ held self.now }
    {
        self.rules.as_slice()
    }

    // The rule at a position.
    pub fn at(&self, i: usize) -> Rule
        requires { i < length (held self.now) }
        ensures { (d : Rule) → result ≡ slice_index_or (held self.now) i d }
    {
        self.rules()[i]
    }

    // The position of the first rule with this id.
    pub fn position(&self, id: u16) -> Option<usize>
        ensures { result ≡ position id (held self.now) }
    {
        self.rules().iter().position(|rule| rule.id == id)
    }

    // Puts a rule in at a position.
    pub fn insert(&mut self, i: usize, rule: Rule)
        requires inside { i ≤ length (held self.old) }
        requires room { length (held self.old) < most_rules }
        ensures { held self.new ≡ insert (held self.old) i rule }
    {
        self.rules.insert(i, rule);
    }

    // Takes the rule at a position out.
    pub fn remove(&mut self, i: usize) -> Rule
        requires { i < length (held self.old) }
        ensures value { (d : Rule) → result ≡ slice_index_or (held self.old) i d }
        ensures held { held self.new ≡ remove (held self.old) i }
    {
        self.rules.remove(i)
    }

    // Takes the rule at a position out and puts it back at another.
    pub fn move_to(&mut self, i: usize, to: usize)
        requires from { i < length (held self.old) }
        requires to { to < length (held self.old) }
        ensures { held self.new ≡ moved (held self.old) i to }
    {
        let rule = self.remove(i);
        self.insert(to, rule);
    }

    // Sets the rule at a position on or off.
    pub fn switch(&mut self, i: usize, on: bool)
        requires { i < length (held self.old) }
        ensures { held self.new ≡ switched_at (held self.old) i on }
    {
        let mut rule = self.at(i);
        rule.on = on;
        self.rules.set(i, rule);
    }
}
