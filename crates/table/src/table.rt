// The table in memory.
use few::Few;
use rules::Rule;

// A table holds at most so many rules.
pub const MOST_RULES: usize = 128;

// The rules, in their order.
#[derive(Clone, Copy)]
pub struct RuleTable {
    pub(crate) rules: Few<Rule, MOST_RULES>,
}
