// A span of services: all of them, or some ports of one protocol.
ghost use Rattle.std.specs.Prelude.{◌≡◌, ◌^◌, ◌<◌, ◌≤◌, true, false};
ghost use Rattle.service.specs.Ports.{has_ports, number_fits};

// All services where there is no protocol, and else the ports of the protocol from `low` to `high`. The ports are all of them where the span is not of a protocol that carries ports.
#[derive(Clone, Copy, PartialEq, Eq, Debug)]
pub struct Span {
    pub(crate) protocol: Option<u8>,
    pub(crate) low: u16,
    pub(crate) high: u16,
    ghost ordered: { low ≤ high },
    ghost protocol_fits: { number_fits protocol ≡ true },
    ghost fits: { high < 2 ^ 16 },
    ghost full: { (has_ports protocol ≡ false → (low ≡ 0) × (high ≡ 65535)) },
}
