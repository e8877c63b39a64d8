// A change of a list, and the two sides of a new run in a line.
use line::Run;

// One side of a new run: the rows that stay end or begin at `cut`, what is left of the run that is cut, and the new run's own end.
#[derive(Clone, Copy)]
pub(crate) struct Side<P, L> {
    pub(crate) cut: usize,
    pub(crate) rest: Option<Run<P, L>>,
    pub(crate) end: P,
}

// A change: `middle`, with what may come before and after it, in the place of the items from `from` to `to`.
#[derive(Clone, Copy)]
pub struct Change<T> {
    pub(crate) from: usize,
    pub(crate) to: usize,
    pub(crate) before: Option<T>,
    pub(crate) middle: T,
    pub(crate) after: Option<T>,
}
