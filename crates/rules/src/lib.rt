// Rules: what they cover, which one decides, and how they label the services of a pair of networks.
#![tactic(auto)]

mod action;
mod covers;
mod labelling;
mod labels;
mod laws;
mod pair;
mod pass;
mod rule;
mod scope;
mod told;

pub use action::Action;
pub use labels::{Deciders, Decisions, PairLabels};
pub use laws::{label_laws, policy_laws};
pub use pair::Pair;
pub use rule::Rule;
pub use scope::Scope;
pub use told::Told;
