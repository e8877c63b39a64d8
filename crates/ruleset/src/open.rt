// Opening a ruleset: a check of the sizes, which may refuse, and the opening, which cannot.
ghost use Rattle.std.specs.Prelude.{◌≡◌, true, false, length, MatchResult};
ghost use Rattle.refusal.specs.declared.refusal.Refusal.TheVariants.{WrongSize};
ghost use Rattle.ruleset.specs.Registers.{sizes_fit, opened};
ghost use Rattle.ruleset.specs.Views.{register_of, SheetsRight};

use crate::Ruleset;
use refusal::Refusal;
use rules::Scope;
use sheets::{SheetRow, Sheets};
use table::RuleTable;

// Whether a ruleset may have these sizes. A struct of them is no plainer: they come one by one from the caller, and after this test they are those of `Sheets`.
fn fits(networks: u8, depth: usize, rows: usize) -> bool
    ensures { result ≡ sizes_fit networks depth rows }
{
    let side = networks as usize + 1;
    networks <= 24 && (1..=64).contains(&depth) && rows == side * side * depth
}

// Whether a ruleset may have these sizes: at most 24 named networks, a depth of 1 to 64, and `depth` rows for each pair.
pub fn check_sizes(networks: u8, depth: usize, rows: usize) -> Result<(), Refusal>
    ensures { MatchResult result (λ _. sizes_fit networks depth rows ≡ true) (λ e. (e ≡ WrongSize) × (sizes_fit networks depth rows ≡ false)) }
{
    if !fits(networks, depth, rows) {
        return Err(Refusal::WrongSize);
    }
    Ok(())
}

impl<'a> Ruleset<'a> {
    // A ruleset without rules, all labels none; with sizes that a ruleset may not have a shut one, which leaves the rows as they are.
    pub fn open(rows: &'a mut [SheetRow], networks: u8, depth: usize) -> Ruleset<'a>
        ensures opens { register_of result ≡ opened networks depth (length rows.old) }
        ensures sheets { SheetsRight result }
        ensures shut { result.ready ≡ false → result.sheets.rows.now ≡ rows.old }
        ensures lent { result.sheets.rows.ghost_name ≡ rows.entry.ghost_name }
    {
        let ready = fits(networks, depth, rows.len());
        let rules = RuleTable::new();
        let mut sheets = Sheets {
            networks,
            depth,
            rows,
        };
        if ready {
            sheets.draw(rules.rules(), &Scope::all());
        }
        Ruleset {
            ready,
            rules,
            sheets,
        }
    }
}
