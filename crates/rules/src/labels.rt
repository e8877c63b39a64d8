// The rules as they label the services of a pair of networks.
ghost use Rattle.std.specs.Prelude.{◌≡◌};

use crate::{Action, Pair, Rule, Told};
use std::marker::PhantomData;

// What is told of the rule that decides each service between two networks.
#[derive(Drop)]
pub struct PairLabels<'r, T> {
    pub rules: &'r [Rule],
    pub pair: Pair,
    told: PhantomData<T>,
}

// By action: what the rules decide of each service.
pub type Decisions<'r> = PairLabels<'r, Action>;

// By rule: the id of the rule that decides each service.
pub type Deciders<'r> = PairLabels<'r, u16>;

impl<'r, T: Told> PairLabels<'r, T> {
    // The labels that these rules give to the services of this pair.
    pub fn new(rules: &'r [Rule], pair: Pair) -> PairLabels<'r, T>
        ensures rules { result.rules.now ≡ rules.now }
        ensures pair { result.pair ≡ pair }
    {
        PairLabels {
            rules,
            pair,
            told: PhantomData,
        }
    }
}
