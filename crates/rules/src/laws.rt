// What holds of the decisions of every list of rules.
ghost use Rattle.std.specs.Prelude.{◌≡◌, ℕ, List};
ghost use Rattle.rules.specs.declared.action.Action.{Action};
ghost use Rattle.rules.specs.declared.labels.PairLabels.{PairLabels};
ghost use Rattle.rules.specs.declared.rule.Rule.{Rule};
ghost use Rattle.rules.specs.Decisions.{decision, decider_id};
ghost use Rattle.rules.specs.Policies.{AnswersDecider, FirstDecides, PortsAlike};

use crate::{Deciders, Decisions};
use line::Labelling;

// The list's policy answers the decider's action, the decider is the first rule in force that covers, and no list tells the ports of a protocol apart that carries none.
pub fn policy_laws()
    ensures policy { (rules : List Rule) → AnswersDecider rules }
    ensures first { (rules : List Rule) → FirstDecides rules }
    ensures ports { (rule : Rule) → PortsAlike rule }
{}

// The labels of a pair by action are what the rules decide, and by rule the ids of the rules that decide.
pub fn label_laws()
    ensures decisions { (labels : PairLabels Action) → ⟦<Decisions<'static> as Labelling>⟧.label labels ≡ decision labels.rules.now labels.pair.from labels.pair.to }
    ensures deciders { (labels : PairLabels ℕ) → ⟦<Deciders<'static> as Labelling>⟧.label labels ≡ decider_id labels.rules.now labels.pair.from labels.pair.to }
{}
