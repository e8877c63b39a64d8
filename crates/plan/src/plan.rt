// The plan in memory, and an edit of it.
ghost use Rattle.std.specs.Prelude.{◌≡◌, ◌≤◌, [], length};
ghost use Rattle.names.specs.Texts.{texts};

use line::Run;
use names::Names;
use splice::Change;

// Networks over the addresses of one kind: the first `count` of the rows that the caller lends are the line. A plan without runs is shut, and has no names.
// The count stands beside the rows since these are the caller's: no heap, and memory is lent.
// A label is a network's number, and 0 is elsewhere, as the product numbers them: an `Option` in each run would be turned into that number wherever it is told.
#[derive(Drop)]
pub struct Plan<'a, A> {
    pub(crate) rows: &'a mut [Run<A, u8>],
    pub(crate) count: usize,
    pub(crate) names: Names,
    ghost fits: { count ≤ length rows.now },
    ghost nameless: { count ≡ 0 → texts names ≡ [] },
}

// A declaration that nothing stands against: the number of its name, and the change of the line.
#[derive(Drop)]
pub(crate) struct Edit<A> {
    pub(crate) number: u8,
    pub(crate) change: Change<Run<A, u8>>,
}
