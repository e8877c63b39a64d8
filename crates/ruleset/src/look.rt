// What a ruleset tells: its sizes, its rules, and the runs of a pair.
ghost use Rattle.std.specs.Prelude.{◌≡◌, true, not};
ghost use Rattle.rules.specs.Decisions.{decision};
ghost use Rattle.service.specs.Spans.{place_of};
ghost use Rattle.sheets.specs.Tables.{HasPair};
ghost use Rattle.ruleset.specs.Views.{rules_of, runs_of, ToldRuns};

use crate::Ruleset;
use line::{line_of, look_up};
use refusal::Refusal;
use rules::{Action, Pair, Rule};
use service::Service;
use sheets::SheetRow;

impl<'a> Ruleset<'a> {
    // Whether the ruleset was opened with sizes that a ruleset may not have.
    pub fn is_shut(&self) -> bool
        ensures { result ≡ not self.now.ready }
    {
        !self.ready
    }

    // How many named networks there are.
    pub fn networks(&self) -> u8
        ensures { result ≡ self.now.sheets.networks }
    {
        self.sheets.networks
    }

    // How many rows each strip has.
    pub fn depth(&self) -> usize
        ensures { result ≡ self.now.sheets.depth }
    {
        self.sheets.depth
    }

    // The rules, in their order.
    pub fn rules(&self) -> &[Rule]
        ensures { result.now ≡ rules_of self.now }
    {
        self.rules.rules()
    }

    // The runs of a pair that is there.
    fn runs_at(&self, pair: Pair) -> &[SheetRow]
        requires ready { self.now.ready ≡ true }
        requires inside { HasPair self.now.sheets.networks pair }
        ensures { result.now ≡ runs_of self.now pair.from pair.to }
    {
        line_of(self.sheets.strips().strip_of(pair))
    }

    // The runs listed for a pair of networks.
    pub fn runs(&self, pair: Pair) -> Result<&[SheetRow], Refusal>
        ensures { ToldRuns self.now pair.from pair.to result }
    {
        self.check_pair(pair)?;
        Ok(self.runs_at(pair))
    }

    // What the rules decide of a service between two networks that are there, read from their sheet.
    pub(crate) fn decision_at(&self, pair: Pair, service: &Service) -> Option<Action>
        requires ready { self.now.ready ≡ true }
        requires inside { HasPair self.now.sheets.networks pair }
        ensures { result ≡ decision (rules_of self.now) pair.from pair.to (place_of service.now) }
    {
        look_up(self.runs_at(pair), service).unwrap()
    }
}
