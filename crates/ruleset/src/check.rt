// The checks of the edits that need no sheet, and of a question about a pair.
ghost use Rattle.std.specs.Prelude.{◌≡◌, ◌<◌, true, false, length, IfOk, MatchResult};
ghost use Rattle.refusal.specs.declared.refusal.Refusal.TheVariants.{Shut};
ghost use Rattle.ruleset.specs.Registers.{unless, insert_cause, pair_cause, place_of_id};
ghost use Rattle.ruleset.specs.Views.{register_of, rules_of};

use crate::Ruleset;
use refusal::Refusal;
use rules::{Pair, Rule};
use table::MOST_RULES;

impl<'a> Ruleset<'a> {
    // Refuses every call to a ruleset that is shut.
    pub(crate) fn check_ready(&self) -> Result<(), Refusal>
        ensures { MatchResult result (λ _. self.now.ready ≡ true) (λ e. (e ≡ Shut) × (self.now.ready ≡ false)) }
    {
        if !self.ready {
            return Err(Refusal::Shut);
        }
        Ok(())
    }

    // The first cause against inserting a rule, other than the length of a sheet.
    pub(crate) fn check_rule(&self, position: usize, rule: &Rule) -> Result<(), Refusal>
        ensures { result ≡ unless (insert_cause (register_of self.now) position rule.now) tt }
    {
        self.check_ready()?;
        if self.rules.len() >= MOST_RULES {
            return Err(Refusal::TooManyRules);
        }
        if rule.id == 0 || self.rules.position(rule.id).is_some() {
            return Err(Refusal::IdNotFree);
        }
        if position > self.rules.len() {
            return Err(Refusal::PositionTooHigh);
        }
        if !rule.scope().is_known(self.sheets.networks) {
            return Err(Refusal::WrongNetwork);
        }
        Ok(())
    }

    // The position of the rule with this id.
    pub(crate) fn place_of(&self, id: u16) -> Result<usize, Refusal>
        ensures is { result ≡ place_of_id (register_of self.now) id }
        ensures within { IfOk result (λ i. (i < length (rules_of self.now)) × (self.now.ready ≡ true)) }
    {
        self.check_ready()?;
        self.rules.position(id).ok_or(Refusal::NoSuchRule)
    }

    // The first cause against a question about a pair.
    pub(crate) fn check_pair(&self, pair: Pair) -> Result<(), Refusal>
        ensures { result ≡ unless (pair_cause (register_of self.now) pair.from pair.to) tt }
    {
        self.check_ready()?;
        if pair.from > self.sheets.networks || pair.to > self.sheets.networks {
            return Err(Refusal::WrongNetwork);
        }
        Ok(())
    }
}
