// The fault of a text: what a load returns where it is refused.
ghost use Rattle.std.specs.Prelude.{◌≡◌};
ghost use Rattle.refusal.specs.Faults.{fault};
ghost use Rattle.refusal.specs.Numbers.{layer, layer_number};

use crate::{Layer, Refusal};

// A cause, and the line and the field where a load met it, each counted from 1 and 0 where the cause has none: the fault line prints this 0, and an `Option` would be turned into it wherever a fault is told.
#[derive(Clone, Copy, PartialEq, Eq, Debug)]
pub struct Fault {
    cause: Refusal,
    line: usize,
    field: usize,
}

impl Fault {
    // The fault of a cause that a load met in this field of this line.
    pub fn new(cause: Refusal, line: usize, field: usize) -> Fault
        ensures { result ≡ fault cause line field }
    {
        Fault {
            cause,
            line: if cause.has_line() { line } else { 0 },
            field: if cause.has_field() { field } else { 0 },
        }
    }

    // What its cause is about.
    pub fn layer(&self) -> Layer
        ensures { layer_number result ≡ layer self.now.cause }
    {
        self.cause.layer()
    }

    pub fn cause(&self) -> Refusal
        ensures { result ≡ self.now.cause }
    {
        self.cause
    }

    pub fn line(&self) -> usize
        ensures { result ≡ self.now.line }
    {
        self.line
    }

    pub fn field(&self) -> usize
        ensures { result ≡ self.now.field }
    {
        self.field
    }
}
