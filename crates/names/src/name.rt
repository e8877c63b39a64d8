// A name in memory, and the table of names.
use few::Few;

// The name of a network, of at most 12 bytes.
#[derive(Clone, Copy)]
pub struct Name {
    pub(crate) bytes: Few<u8, 12>,
}

// Up to 24 names, numbered from 1.
#[derive(Clone, Copy)]
pub struct Names {
    pub(crate) list: Few<Name, 24>,
}
