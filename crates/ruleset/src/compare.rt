// Comparing two rulesets, pair by pair.
ghost use Rattle.ruleset.specs.Compares.{Compares};

use crate::Ruleset;
use refusal::Refusal;

impl<'a> Ruleset<'a> {
    // Whether two rulesets list the same runs for every pair, which is whether they decide every packet alike. With other numbers of networks they have other pairs, and do not.
    pub fn lists_like(&self, other: &Ruleset<'_>) -> Result<bool, Refusal>
        ensures { Compares self.now other.now result }
    {
        self.check_ready()?;
        other.check_ready()?;
        Ok(self.sheets.strips().list_like(&other.sheets.strips()))
    }
}
