// What the trials compare: how a call ended, in numbers, and what a plan holds.
use address::{Address, Ipv4, Ipv6};
use line::Run;
use plan::Plan;
use planload::load_plan;
use planwrite::write_plan;
use refusal::Refusal;
use std::alloc::{AllocError, Global};
use std::test::Fail;

// How a load ended: where it was refused, the numbers of its fault, as the fault line prints them: the layer, the cause, the line and the field.
pub(crate) type Ending = Result<(), (u8, u8, usize, usize)>;

// The end of a load that nothing stood against.
pub(crate) const FINE: Ending = Ok(());

// Loads a text into a plan, and says how the load ended.
pub(crate) fn loaded<A: Address>(plan: &mut Plan<'_, A>, text: &[u8]) -> Ending {
    load_plan(plan, text).map_err(|fault| {
        (
            fault.layer().number(),
            fault.cause().number(),
            fault.line(),
            fault.field(),
        )
    })
}

// The number of the cause why a call was refused.
pub(crate) fn cause<T: Drop>(res: Result<T, Refusal>) -> Option<u8> {
    res.err().map(Refusal::number)
}

// Declares the addresses with the numbers from `low` to `high`, and says the number of the cause why that was refused.
pub(crate) fn declared(plan: &mut Plan<'_, Ipv4>, name: &[u8], low: u32, high: u32) -> Option<u8> {
    cause(plan.declare(name, Ipv4::new(low), Ipv4::new(high)))
}

// The bytes that the text of a plan may have here.
const ROOM: usize = 300;

// What a plan holds: its networks, its runs, and its text.
#[derive(PartialEq, Eq, Debug, Drop)]
pub(crate) struct Holding {
    networks: u8,
    runs: usize,
    text: Vec<u8>,
}

impl Holding {
    pub(crate) fn text(&self) -> &[u8] {
        self.text.as_slice()
    }
}

pub(crate) fn held<A: Address>(heap: Global, plan: &Plan<'_, A>) -> Result<Holding, Fail> {
    let mut text = vec![in heap; 0u8; ROOM]?;
    let end = write_plan(plan, text.as_mut_slice())?;
    if text.iter().skip(end).any(|byte| *byte != 0) {
        return Err(Fail::new("a byte after the text is written"));
    }
    text.truncate(end);
    Ok(Holding {
        networks: plan.networks(),
        runs: plan.runs().len(),
        text,
    })
}

// Fails where one of the texts is not refused as told, or where the plan holds afterwards what it did not before.
pub(crate) fn refuses_each<A: Address>(
    heap: Global,
    plan: &mut Plan<'_, A>,
    cases: &[(&[u8], Ending)],
) -> Result<(), Fail> {
    let before = held(heap, plan)?;
    for (text, wanted) in cases {
        if loaded(plan, text) != *wanted {
            return Err(Fail::new("a text is not refused as told"));
        }
    }
    if held(heap, plan)? != before {
        return Err(Fail::new("a refused text leaves a trace"));
    }
    Ok(())
}

// Whether this is the text of the plan.
pub(crate) fn writes<A: Address>(plan: &Plan<'_, A>, text: &[u8]) -> bool {
    let mut bytes = [0; ROOM];
    let Ok(end) = write_plan(plan, &mut bytes) else {
        return false;
    };
    end == text.len() && bytes.starts_with(text)
}

// A row that no plan has written.
fn stale<A>(low: A, high: A) -> Run<A, u8> {
    Run {
        low,
        high,
        label: 99,
    }
}

pub(crate) fn unwritten() -> Run<Ipv4, u8> {
    stale(Ipv4::new(7), Ipv4::new(9))
}

pub(crate) fn unwritten6() -> Run<Ipv6, u8> {
    stale(Ipv6::new(7, 7), Ipv6::new(9, 9))
}

pub(crate) fn unwritten_rows(heap: Global, count: usize) -> Result<Vec<Run<Ipv4, u8>>, AllocError> {
    Ok(vec![in heap; unwritten(); count]?)
}

// Whether a row is as a plan leaves those that it does not need.
pub(crate) fn is_blank(row: &Run<Ipv4, u8>) -> bool {
    *row == Run::blank(0)
}
