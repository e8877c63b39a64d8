// The ruleset in memory.
ghost use Rattle.std.specs.Prelude.{◌≡◌, true};
ghost use Rattle.sheets.specs.Strips.{Right};
ghost use Rattle.table.specs.Held.{held};

use sheets::Sheets;
use table::RuleTable;

// Rules, and their sheets in the rows that the caller lends. A ruleset that is not ready is shut.
#[derive(Drop)]
pub struct Ruleset<'a> {
    // A flag and no enum: a ruleset that is shut tells its sizes too and keeps the rows, so that both states would have these same fields, and so would a type of open rulesets, for which three functions ask by a clause.
    pub(crate) ready: bool,
    pub(crate) rules: RuleTable,
    pub(crate) sheets: Sheets<'a>,
    ghost sound: { (ready ≡ true → ∥ Right (held rules) sheets.networks sheets.depth sheets.rows.now ∥₁) },
}
