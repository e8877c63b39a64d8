// Why a call is refused: the causes with their numbers, and the fault that a load returns.
#![tactic(auto)]

mod fault;
mod layer;
mod refusal;

pub use fault::Fault;
pub use layer::Layer;
pub use refusal::Refusal;
