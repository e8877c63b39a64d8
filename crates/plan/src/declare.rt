// Declaring a range of addresses: all checks first, and then an edit that cannot fail.
ghost use Rattle.std.specs.Prelude.{◌≡◌, ◌≤◌, length, take, drop, Err, MatchResult, nat_lt};
ghost use Rattle.std.specs.Result.{result_err};
ghost use Rattle.names.specs.Names.{well_formed};
ghost use Rattle.std.specs.List.{AllByRecursion};
ghost use Rattle.refusal.specs.declared.refusal.Refusal.TheVariants as cause;
ghost use Rattle.splice.specs.Changes.{changed, count_after, Apt};
ghost use Rattle.plan.specs.Made.{Blank, Shut, Declares, declaration};
ghost use Rattle.plan.specs.Edits.{Safe, Judges, Entered, first_cause};

use crate::Plan;
use crate::fit::fit;
use crate::plan::Edit;
use line::{Point, Run, fill};
use names::is_well_formed;
use refusal::Refusal;
use splice::Change;

// Refuses a declaration by the first of the checks before the addresses that fails: of the name, of the range's order, of the number of names.
fn check_sane<A: Point>(name: &[u8], new: &Run<A, u8>) -> Result<(), Refusal>
    ensures { result_err result ≡ first_cause (well_formed name.now) (nat_lt (A.Point.place new.now.high) (A.Point.place new.now.low)) (nat_lt 24 new.now.label) }
{
    if !is_well_formed(name) {
        return Err(Refusal::FieldMalformed);
    }
    if new.high < new.low {
        return Err(Refusal::RangeReversed);
    }
    if new.label > 24 {
        return Err(Refusal::TooManyNames);
    }
    Ok(())
}

// Makes a change in the first `old` rows, and says how many they are then. Only the rows that it frees are blanked: those after them are blank already.
fn change_rows<A: Point>(rows: &mut [Run<A, u8>], old: usize, change: &Change<Run<A, u8>>) -> usize
    requires apt { Apt old change.now }
    requires fits { old ≤ length rows.old }
    requires room { count_after change.now old ≤ length rows.old }
    ensures count { result ≡ count_after change.now old }
    ensures list { take result rows.new ≡ changed change.now (take old rows.old) }
    ensures blank { AllByRecursion (Blank A.Point.place) (drop old rows.old) → AllByRecursion (Blank A.Point.place) (drop result rows.new) }
{
    let count = change.apply(rows, old);
    if count < old {
        fill(&mut rows[count..old], Run::blank(0));
    }
    count
}

// The clauses `shut`, `long` and `lent` stand in full at each function: each is one equality, and a word for it would be no plainer.
impl<'a, A: Point> Plan<'a, A> {
    // The edit that a declaration makes, or why it is refused.
    // It takes `low` and `high`, and no run: the run has the network's number too, which `judge` itself finds once the plan is known to be open.
    fn judge(&self, name: &[u8], low: A, high: A) -> Result<Edit<A>, Refusal>
        ensures shut { Shut self.now → result ≡ Err cause.Shut }
        ensures safe { MatchResult result (Safe self.now name.now) (λ _. 0 ≤ 0) }
        ensures judged { Judges A.Point.place A.Point.size self.now (declaration A.Point.place name.now low high) result }
    {
        if self.is_shut() {
            return Err(Refusal::Shut);
        }
        let number = self.names.number(name);
        let new = Run {
            low,
            high,
            label: number,
        };
        check_sane(name, &new)?;
        let change = fit(self.runs(), self.rows.len(), &new)?;
        Ok(Edit { number, change })
    }

    // Makes an edit.
    fn enter(&mut self, name: &[u8], edit: &Edit<A>)
        requires { Safe self.old name.now edit.now }
        ensures entered { Entered A.Point.place self.old self.new name.now edit.now }
        ensures lent { self.new.rows.ghost_name ≡ self.old.rows.ghost_name }
    {
        let old = self.count;
        self.count = change_rows(self.rows, old, &edit.change);
        if edit.number > self.names.count() {
            self.names.add(name);
        }
    }

    // Gives the addresses from `low` to `high` to the network with this name, and says its number.
    pub fn declare(&mut self, name: &[u8], low: A, high: A) -> Result<u8, Refusal>
        ensures shut { Shut self.old → result ≡ Err cause.Shut }
        ensures refused { MatchResult result (λ _. 0 ≤ 0) (λ _. self.new ≡ self.old) }
        ensures declared { Declares A.Point.place A.Point.size self.old (declaration A.Point.place name.now low high) self.new result }
        ensures long { length self.new.rows.now ≡ length self.old.rows.now }
        ensures lent { self.new.rows.ghost_name ≡ self.old.rows.ghost_name }
    {
        let edit = self.judge(name, low, high)?;
        self.enter(name, &edit);
        Ok(edit.number)
    }
}
