// Which protocols carry ports, by a table of all protocol numbers.
ghost use Rattle.std.specs.Prelude.{◌≡◌};
ghost use Rattle.service.specs.Ports.{carries_ports};

// For each protocol number, whether its packets carry ports.
// Written out and not a `matches!`: a rule of the project is that a constant table of all protocol numbers says it.
const CARRIES_PORTS: [bool; 256] = [
    false, false, false, false, false, false,
    // 6: TCP
    true, false, false, false, false, false, false, false, false, false, false,
    // 17: UDP
    true, false, false, false, false, false, false, false, false, false, false, false, false,
    false, false, false,
    // 33: DCCP
    true, false, false, false, false, false, false, false, false, false, false, false, false,
    false, false, false, false, false, false, false, false, false, false, false, false, false,
    false, false, false, false, false, false, false, false, false, false, false, false, false,
    false, false, false, false, false, false, false, false, false, false, false, false, false,
    false, false, false, false, false, false, false, false, false, false, false, false, false,
    false, false, false, false, false, false, false, false, false, false, false, false, false,
    false, false, false, false, false, false, false, false, false, false, false, false, false,
    false, false, false, false, false, false, false, false,
    // 132: SCTP
    true, false, false, false,
    // 136: UDP-Lite
    true, false, false, false, false, false, false, false, false, false, false, false, false,
    false, false, false, false, false, false, false, false, false, false, false, false, false,
    false, false, false, false, false, false, false, false, false, false, false, false, false,
    false, false, false, false, false, false, false, false, false, false, false, false, false,
    false, false, false, false, false, false, false, false, false, false, false, false, false,
    false, false, false, false, false, false, false, false, false, false, false, false, false,
    false, false, false, false, false, false, false, false, false, false, false, false, false,
    false, false, false, false, false, false, false, false, false, false, false, false, false,
    false, false, false, false, false, false, false, false, false, false, false, false, false,
    false, false, false,
];

// Whether packets of this protocol carry ports.
pub fn carries_ports(protocol: u8) -> bool
    ensures { result ≡ carries_ports protocol }
{
    CARRIES_PORTS[protocol as usize]
}
