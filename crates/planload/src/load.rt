// Loading a plan text: each row is declared, up to the first that is refused.
ghost use Rattle.std.specs.Prelude.{◌≡◌, ◌<◌, ◌≤◌, length, Err, MatchResult};
ghost use Rattle.refusal.specs.declared.refusal.Refusal.TheVariants as cause;
ghost use Rattle.refusal.specs.Faults.{fault};
ghost use Rattle.plan.specs.Made.{Shut};
ghost use Rattle.planload.specs.Outcome.{AddsRow, AddsText};

use crate::row::read_row;
use address::Address;
use plan::Plan;
use refusal::{Fault, Refusal};
use text::{Row, Rows};

// The bytes that a text may have at most.
const LONGEST: usize = 16384;

// Declares what the row says. The clauses `long` and `lent` stand in full here and below, as in `plan`: each is one equality, and a word for it would be no plainer.
fn load_row<A: Address>(plan: &mut Plan<'_, A>, row: &Row<'_>) -> Result<(), Fault>
    ensures refused { MatchResult result (λ _. 0 ≤ 0) (λ _. plan.new ≡ plan.old) }
    ensures loads { AddsRow A.Address.text A.Point.place A.Point.size plan.old row.now.line row.now.bytes.now plan.new result }
    ensures long { length plan.new.rows.now ≡ length plan.old.rows.now }
    ensures lent { plan.new.rows.ghost_name ≡ plan.old.rows.ghost_name }
{
    let line = row.line;
    let entry = read_row::<A>(row)?;
    plan.declare(entry.name, entry.low, entry.high)
        .map_err(|refusal| Fault::new(refusal, line, 0))?;
    Ok(())
}

// Declares what the rows of a text say, up to the first that is refused; what they declared before it stays.
pub fn load_plan<A: Address>(plan: &mut Plan<'_, A>, text: &[u8]) -> Result<(), Fault>
    ensures shut { Shut plan.old → (result ≡ Err (fault cause.Shut 0 0)) × (plan.new ≡ plan.old) }
    ensures over { 0 < plan.old.count → 16384 < length text.now → (result ≡ Err (fault cause.TextTooLong 0 0)) × (plan.new ≡ plan.old) }
    ensures loads { AddsText A.Address.text A.Point.place A.Point.size plan.old text.now plan.new result }
    ensures long { length plan.new.rows.now ≡ length plan.old.rows.now }
    ensures lent { plan.new.rows.ghost_name ≡ plan.old.rows.ghost_name }
{
    if plan.is_shut() {
        return Err(Fault::new(Refusal::Shut, 0, 0));
    }
    if text.len() > LONGEST {
        return Err(Fault::new(Refusal::TextTooLong, 0, 0));
    }
    for row in Rows::new(text) {
        if !row.is_passed_over() {
            load_row(plan, &row)?;
        }
    }
    Ok(())
}
