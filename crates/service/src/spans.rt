// Making a span, and what it tells.
ghost use Rattle.std.specs.Prelude.{◌≡◌, false, None, MatchResult};
ghost use Rattle.refusal.specs.declared.refusal.Refusal.TheVariants.{PortsNotAllowed};
ghost use Rattle.service.specs.Ports.{has_ports, ports_allowed};
ghost use Rattle.service.specs.Spans.{place_of, first_place, last_place};

use crate::{Service, Span, carries_ports};
use line::Point;
use refusal::Refusal;

// Whether a span of this protocol has ports to choose from.
fn has_ports(protocol: Option<u8>) -> bool
    ensures { result ≡ has_ports protocol }
{
    protocol.is_some_and(carries_ports)
}

// Whether a span may have these ports. It takes the parts of a span, and no span: there is none before they are tested.
fn are_allowed(protocol: Option<u8>, low: u16, high: u16) -> bool
    ensures { result ≡ ports_allowed protocol low high }
{
    if has_ports(protocol) {
        low <= high
    } else {
        low == 0 && high == u16::MAX
    }
}

impl Span {
    // The span with these ports; refused exactly where no span may have them.
    pub fn new(protocol: Option<u8>, low: u16, high: u16) -> Result<Span, Refusal>
        ensures { MatchResult result (λ s. (s.protocol ≡ protocol) × (s.low ≡ low) × (s.high ≡ high)) (λ e. (e ≡ PortsNotAllowed) × (ports_allowed protocol low high ≡ false)) }
    {
        if !are_allowed(protocol, low, high) {
            return Err(Refusal::PortsNotAllowed);
        }
        Ok(Span {
            protocol,
            low,
            high,
        })
    }

    // The span of all services.
    pub fn all() -> Span
        ensures { (result.protocol ≡ None) × (result.low ≡ 0) × (result.high ≡ 65535) }
    {
        Span {
            protocol: None,
            low: 0,
            high: u16::MAX,
        }
    }

    pub fn protocol(&self) -> Option<u8>
        ensures { result ≡ self.now.protocol }
    {
        self.protocol
    }

    pub fn low(&self) -> u16
        ensures { result ≡ self.now.low }
    {
        self.low
    }

    pub fn high(&self) -> u16
        ensures { result ≡ self.now.high }
    {
        self.high
    }

    // The first service of the span.
    pub fn first(&self) -> Service
        ensures { place_of result ≡ first_place self.now }
    {
        self.protocol.map_or(
            Service::first(),
            |protocol| Service::new(protocol, self.low),
        )
    }

    // The last service of the span.
    pub fn last(&self) -> Service
        ensures { place_of result ≡ last_place self.now }
    {
        self.protocol.map_or(
            Service::last(),
            |protocol| Service::new(protocol, self.high),
        )
    }
}
