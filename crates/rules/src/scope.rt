// The pairs of networks that a rule covers.
ghost use Rattle.std.specs.Prelude.{◌≡◌, ◌&&◌, None};
ghost use Rattle.rules.specs.Ends.{end_known, scope_has};

use crate::Pair;

// The pairs whose source belongs to `from` and whose destination belongs to `to`, each one network, or any where there is none.
#[derive(Clone, Copy, PartialEq, Eq, Debug)]
pub struct Scope {
    pub from: Option<u8>,
    pub to: Option<u8>,
}

impl Scope {
    // Every pair.
    pub fn all() -> Scope
        ensures { (result.from ≡ None) × (result.to ≡ None) }
    {
        Scope {
            from: None,
            to: None,
        }
    }

    // Whether the pair of these networks is one of them.
    pub fn has(&self, pair: Pair) -> bool
        ensures { result ≡ scope_has self.now pair.from pair.to }
    {
        self.from.is_none_or(|network| network == pair.from)
            && self.to.is_none_or(|network| network == pair.to)
    }

    // Whether it names no network above the last.
    pub fn is_known(&self, networks: u8) -> bool
        ensures { result ≡ (end_known self.now.from networks && end_known self.now.to networks) }
    {
        self.from.is_none_or(|network| network <= networks)
            && self.to.is_none_or(|network| network <= networks)
    }
}
