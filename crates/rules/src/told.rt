// What a labelling tells of the rule that decides.
ghost use Rattle.std.specs.Prelude.{◌≡◌};
ghost use Rattle.rules.specs.declared.rule.Rule.{Rule};

use crate::{Action, Rule};
use line::Label;

// A part of a rule, as a label.
pub trait Told: Label {
    ghost of: { Rule → Self };

    // The part of this rule.
    fn of_rule(rule: &Rule) -> Self
        ensures { result ≡ of rule.now };
}

impl Told for Action {
    ghost of = { λ r. r.action };

    fn of_rule(rule: &Rule) -> Action {
        rule.action
    }
}

// By its id.
impl Told for u16 {
    ghost of = { λ r. r.id };

    fn of_rule(rule: &Rule) -> u16 {
        rule.id
    }
}
