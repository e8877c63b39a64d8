// A packet: what is told of one that is on its way.
ghost use Rattle.std.specs.Prelude.{◌≡◌, ◌+◌, ◌*◌, false};
ghost use Rattle.service.specs.Ports.{carries_ports, port_of};
ghost use Rattle.service.specs.contracts.service.ServicePoint.TheImpl.{ghosts as services};

use service::{Service, carries_ports};
use std::alloc::AllocError;

// The addresses of a packet, its protocol, and its destination port, which is 0 where the protocol carries none.
#[derive(Copy, PartialEq, Eq, Debug)]
pub struct Packet<A> {
    source: A,
    destination: A,
    protocol: u8,
    port: u16,
    ghost settled: { (carries_ports protocol ≡ false → port ≡ 0) },
}

// By hand: tried, and no derive of `Clone` goes over a generic struct with a ghost field.
impl<A: Copy> Clone for Packet<A> {
    ghost is_clone = { λ packet copy. copy ≡ packet };

    ghost is_infallible = { λ _. Unit {0} };

    fn clone(&self) -> Result<Packet<A>, AllocError> {
        Ok(*self)
    }
}

impl<A: Copy> Packet<A> {
    // The packet with this port, or with port 0 where its protocol carries none.
    pub fn new(source: A, destination: A, protocol: u8, port: u16) -> Packet<A>
        ensures source { result.source ≡ source }
        ensures destination { result.destination ≡ destination }
        ensures protocol { result.protocol ≡ protocol }
        ensures port { result.port ≡ port_of protocol port }
    {
        let port = if carries_ports(protocol) { port } else { 0 };
        Packet {
            source,
            destination,
            protocol,
            port,
        }
    }

    pub fn source(&self) -> A
        ensures { result ≡ self.now.source }
    {
        self.source
    }

    pub fn destination(&self) -> A
        ensures { result ≡ self.now.destination }
    {
        self.destination
    }

    pub fn protocol(&self) -> u8
        ensures { result ≡ self.now.protocol }
    {
        self.protocol
    }

    pub fn port(&self) -> u16
        ensures value { result ≡ self.now.port }
        ensures settled { carries_ports self.now.protocol ≡ false → result ≡ 0 }
    {
        self.port
    }

    // The packet's place among the services: its protocol and its port.
    pub fn service(&self) -> Service
        ensures protocol { result.protocol ≡ self.now.protocol }
        ensures port { result.port ≡ self.now.port }
        ensures place { services.place result ≡ self.now.protocol * 65536 + self.now.port }
    {
        Service::new(self.protocol, self.port)
    }
}
