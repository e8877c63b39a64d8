// The labelling of a pair, told piece by piece.
ghost use Rattle.rules.specs.Decisions.{told_by};

use crate::pass::deciding;
use crate::{PairLabels, Told};
use line::Labelling;
use service::Service;

impl<'r, T: Told> Labelling for PairLabels<'r, T> {
    type Spot = Service;

    type Tag = Option<T>;

    ghost label = { λ s. told_by T.Told.of s.rules.now s.pair.from s.pair.to };

    ghost ready = { λ _. Unit {0} };

    fn piece(&self, from: &Service) -> (Option<T>, Service) {
        let (rule, end) = deciding(self.rules, self.pair, from);
        (rule.map(|rule| T::of_rule(rule)), end)
    }
}
