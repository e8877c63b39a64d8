// Opening a plan: a check of the size, which may refuse, and the opening, which cannot.
ghost use Rattle.std.specs.Prelude.{◌≡◌, true, false, [], length, MatchResult};
ghost use Rattle.refusal.specs.declared.refusal.Refusal.TheVariants.{WrongSize};
ghost use Rattle.plan.specs.Made.{size_fits, Made, Shut};

use crate::Plan;
use line::{Point, Run, fill};
use names::Names;
use refusal::Refusal;

// Whether a plan may have so many rows.
fn fits(rows: usize) -> bool
    ensures { result ≡ size_fits rows }
{
    (1..=4096).contains(&rows)
}

// Whether a plan may have so many rows: 1 to 4,096.
pub fn check_rows(rows: usize) -> Result<(), Refusal>
    ensures { MatchResult result (λ _. size_fits rows ≡ true) (λ e. (e ≡ WrongSize) × (size_fits rows ≡ false)) }
{
    if fits(rows) {
        Ok(())
    } else {
        Err(Refusal::WrongSize)
    }
}

impl<'a, A: Point> Plan<'a, A> {
    // A plan without declarations; where the rows are too few or too many, a shut one, which leaves them as they are.
    pub fn open(rows: &'a mut [Run<A, u8>]) -> Plan<'a, A>
        ensures made { size_fits (length rows.old) ≡ true → Made A.Point.place A.Point.size [] result }
        ensures shut { size_fits (length rows.old) ≡ false → Shut result × (result.rows.now ≡ rows.old) }
        ensures long { length result.rows.now ≡ length rows.old }
        ensures lent { result.rows.ghost_name ≡ rows.entry.ghost_name }
    {
        if !fits(rows.len()) {
            return Plan {
                rows,
                count: 0,
                names: Names::new(),
            };
        }
        let blank = Run::blank(0);
        fill(rows, blank);
        rows[0] = Run {
            high: A::last(),
            ..blank
        };
        Plan {
            rows,
            count: 1,
            names: Names::new(),
        }
    }
}
