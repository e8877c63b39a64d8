// The work of a program: read the text, work out the answer, print it.
ghost use Rattle.std.specs.Prelude.{◌≡◌};
ghost use Rattle.matrix.specs.declared.run.Failure.TheVariants.{Machine};

use crate::{Answer, plan_answer};
use address::Address;
use line::Run;
use refusal::Refusal;
use std::alloc::AllocError;
use std::fs::File;
use std::io;
use std::io::{Read, Write};

// Why a program ends with status 1: it printed a fault, or the machine failed it, by its memory, its files or too short a buffer.
#[derive(Debug, Drop)]
pub enum Failure {
    Fault,
    Machine,
}

// An impl for each error and not one, which is no plainer: one over every `Error` would ask a refusal to be one, which nothing else needs.
impl From<io::Error> for Failure {
    ghost from_gives = { λ _ failure. failure ≡ Machine };

    fn from(_error: io::Error) -> Failure {
        Failure::Machine
    }
}

impl From<AllocError> for Failure {
    ghost from_gives = { λ _ failure. failure ≡ Machine };

    fn from(_error: AllocError) -> Failure {
        Failure::Machine
    }
}

impl From<Refusal> for Failure {
    ghost from_gives = { λ _ failure. failure ≡ Machine };

    fn from(_refusal: Refusal) -> Failure {
        Failure::Machine
    }
}

// What a file holds; one that cannot be opened counts as empty, which `fs::read` doesn't tell from one that cannot be read.
fn read_file(rt: &HostRuntime, name: &str) -> io::Result<Vec<u8>> {
    let mut bytes = Vec::new(rt.alloc());
    if let Ok(mut file) = File::open(rt, name) {
        file.read_to_end(&mut bytes)?;
    }
    Ok(bytes)
}

// The plan rows of a program.
const PLAN_ROWS: usize = 64;

// The bytes that a program has for what it prints: 64 rows of at most 97 bytes, and some.
const OUTPUT: usize = 8192;

// Reads `plan.txt`, prints the plan as it was understood or the one fault line, and fails after a fault.
pub fn print_plan<A: Address>(rt: &HostRuntime) -> Result<(), Failure> {
    let text = read_file(rt, "plan.txt")?;
    let mut rows = vec![in rt.alloc(); Run::<A, u8>::blank(0); PLAN_ROWS]?;
    let mut out = vec![in rt.alloc(); 0u8; OUTPUT]?;
    let answer = plan_answer(rows.as_mut_slice(), text.as_slice(), out.as_mut_slice())?;
    let (count, end) = match answer {
        Answer::Plan(count) => (count, Ok(())),
        Answer::Fault(count) => (count, Err(Failure::Fault)),
    };
    out.truncate(count);
    rt.stdout().write_all(out.as_slice())?;
    end
}
