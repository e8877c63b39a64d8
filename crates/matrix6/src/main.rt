// The matrix program for IPv6 addresses.
#![tactic(auto)]

use address::Ipv6;
use matrix::{Failure, print_plan};

fn main(rt: HostRuntime) -> Result<(), Failure> {
    print_plan::<Ipv6>(&rt)
}
