// The service point: protocol by protocol, and port by port within a protocol.
ghost use Rattle.std.specs.Prelude.{◌≡◌, ◌+◌, ◌*◌, ◌^◌, ◌<◌};
ghost use Rattle.service.specs.ServiceLemmas.{on_the_scale, equal_by_place, ordered_by_place};

use line::Point;

// A protocol and a port.
#[derive(Clone, Copy, PartialEq, Eq, PartialOrd, Ord, Debug)]
pub struct Service {
    protocol: u8,
    port: u16,
    ghost protocol_fits: { protocol < 2 ^ 8 },
    ghost port_fits: { port < 2 ^ 16 },
}

impl Service {
    pub fn new(protocol: u8, port: u16) -> Service
        ensures { (result.protocol ≡ protocol) × (result.port ≡ port) }
    {
        Service { protocol, port }
    }

    pub fn protocol(&self) -> u8
        ensures { result ≡ self.now.protocol }
    {
        self.protocol
    }

    pub fn port(&self) -> u16
        ensures { result ≡ self.now.port }
    {
        self.port
    }
}

impl Point for Service {
    ghost size = { 2 ^ 24 };

    ghost place = { λ s. s.protocol * 65536 + s.port };

    ghost inside = { λ s. on_the_scale s.protocol s.port s.protocol_fits s.port_fits };

    ghost equal_by_place = { λ a b. equal_by_place a.protocol a.port b.protocol b.port a.port_fits b.port_fits };

    ghost ordered_by_place = { λ a b. ordered_by_place a.protocol a.port b.protocol b.port a.port_fits b.port_fits };

    fn first() -> Self {
        Service {
            protocol: 0,
            port: 0,
        }
    }

    fn last() -> Self {
        Service {
            protocol: u8::MAX,
            port: u16::MAX,
        }
    }

    fn next(&self) -> Option<Self> {
        if let Some(port) = self.port.checked_add(1) {
            return Some(Service {
                protocol: self.protocol,
                port,
            });
        }
        let protocol = self.protocol.checked_add(1)?;
        Some(Service { protocol, port: 0 })
    }

    fn previous(&self) -> Option<Self> {
        if let Some(port) = self.port.checked_sub(1) {
            return Some(Service {
                protocol: self.protocol,
                port,
            });
        }
        let protocol = self.protocol.checked_sub(1)?;
        Some(Service {
            protocol,
            port: u16::MAX,
        })
    }
}
