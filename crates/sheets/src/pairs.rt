// The pairs of networks, one after the other.
ghost use Rattle.std.specs.Prelude.{◌≡◌, ◌≤◌, Some};
ghost use Rattle.std.specs.Option.{ForSome};

use rules::Pair;

// The pairs of so many named networks and elsewhere that are still to come, from `next` on, ordered by from and then by to.
#[derive(Drop)]
pub(crate) struct Pairs {
    pub(crate) networks: u8,
    pub(crate) next: Option<Pair>,
    ghost inside: { ForSome next (λ pair. (pair.from ≤ networks) × (pair.to ≤ networks)) },
}

impl Pairs {
    // All pairs of so many named networks and elsewhere.
    pub(crate) fn new(networks: u8) -> Pairs
        ensures networks { result.networks ≡ networks }
        ensures next { result.next ≡ Some (record { from = 0; to = 0 }) }
    {
        Pairs {
            networks,
            next: Some(Pair { from: 0, to: 0 }),
        }
    }
}
