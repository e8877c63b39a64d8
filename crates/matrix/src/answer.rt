// The answer to a plan text, in a buffer.
ghost use Rattle.std.specs.Prelude.{◌≡◌, length};
ghost use Rattle.matrix.specs.Answers.{Answered};

use crate::{TextKind, write_fault};
use address::Address;
use line::Run;
use plan::Plan;
use planload::load_plan;
use planwrite::write_plan;
use refusal::Refusal;

// What the first bytes of the buffer are: so many bytes of a plan, or of a fault line. No `Result`, since a fault line is what is printed and no refusal, and counts and no lent parts, since the contract tells what the whole buffer holds afterwards.
#[derive(Clone, Copy)]
pub enum Answer {
    Plan(usize),
    Fault(usize),
}

// Loads the text into a new plan over these rows, and writes the plan, or the fault line, into the buffer.
pub fn plan_answer<A: Address>(
    rows: &mut [Run<A, u8>],
    text: &[u8],
    out: &mut [u8],
) -> Result<Answer, Refusal>
    ensures { Answered A.Address.text A.Point.place A.Point.size (length rows.old) text.now out.old out.new result }
{
    let mut plan = Plan::open(rows);
    match load_plan(&mut plan, text) {
        Ok(()) => write_plan(&plan, out).map(Answer::Plan),
        Err(fault) => write_fault(TextKind::Plan, &fault, out).map(Answer::Fault),
    }
}
