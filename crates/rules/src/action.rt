// What a rule does with the packets that it decides.
ghost use Rattle.rules.specs.ActionLemmas.{actions_tell};

use line::Label;

#[derive(Clone, Copy, PartialEq, Eq, Debug)]
pub enum Action {
    Accept,
    Deny,
}

impl Label for Action {
    ghost tells = { actions_tell };
}
