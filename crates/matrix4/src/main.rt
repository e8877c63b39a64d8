// The matrix program for IPv4 addresses.
#![tactic(auto)]

use address::Ipv4;
use matrix::{Failure, print_plan};

fn main(rt: HostRuntime) -> Result<(), Failure> {
    print_plan::<Ipv4>(&rt)
}
