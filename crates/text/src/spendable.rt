// What takes texts one after another, and may tell that no text changes it any more.
ghost use Rattle.std.specs.Prelude.{◌≡◌, ℕ, Bool, true, List};

use crate::Sink;

// A sink that may be spent.
pub trait Spendable: Sink {
    // the sink is known to stay as it is, whatever it takes
    ghost spent: { Self → Bool };

    // Whether the sink is known to stay as it is, whatever it takes, so that a walk over texts may end here.
    fn is_spent(&self) -> bool
        ensures { result ≡ spent self.now };

    // a sink that is spent stays as it is, whatever it takes
    ghost stays: { (s : Self) (text : List ℕ) → spent s ≡ true → Self.Sink.takes s text s };
}
