// A rule of a list.
ghost use Rattle.std.specs.Prelude.{◌^◌, ◌<◌};

use crate::Action;
use service::Span;

// What a rule does, for which packets, and whether it is on. `from` and `to` each name one network, or any where there is none.
#[derive(Clone, Copy, PartialEq, Eq, Debug)]
pub struct Rule {
    pub id: u16,
    pub action: Action,
    // Not one `Scope` for `from` and `to`, which is no plainer: every definition over rules and every maker of one names the two, and `scope` gives them at once where they are asked together.
    pub from: Option<u8>,
    pub to: Option<u8>,
    pub span: Span,
    // A flag, as `switch` takes it: no value stands beside it that one state lacks.
    pub on: bool,
    ghost id_fits: { id < 2 ^ 16 },
}
