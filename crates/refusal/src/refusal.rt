// The causes of refusal: each has one number, one layer, and a line or none.
ghost use Rattle.std.specs.Prelude.{◌≡◌};
ghost use Rattle.refusal.specs.Numbers.{number, layer, layer_number, has_line, has_field};

use crate::Layer;

// Why a call is refused, in the order of the numbers.
#[derive(Clone, Copy, PartialEq, Eq, Debug)]
pub enum Refusal {
    // Plan rows not 1 to 4,096, over 24 networks, depth not 1 to 64, or sheet rows not pairs times depth.
    WrongSize = 1,
    // The plan or the ruleset is shut.
    Shut,
    // A 129th rule.
    TooManyRules,
    // An id that is 0 or in use.
    IdNotFree,
    // No rule has the id.
    NoSuchRule,
    // A position past the rules.
    PositionTooHigh,
    // A network number too high, or a plan with another number of networks.
    WrongNetwork,
    // Ports that no span may have.
    PortsNotAllowed,
    // A sheet would need more runs than the depth.
    SheetTooLong,
    // The low address is after the high one.
    RangeReversed,
    // The range meets a declared address.
    RangeTaken,
    // The line would need more runs than the plan has rows.
    PlanFull,
    // No address would remain elsewhere.
    NothingElsewhere,
    // The packet's bytes end too early.
    PacketTooShort,
    // Another version, or an IPv4 header length below 5.
    WrongHeader,
    // An IPv4 fragment offset above 0.
    LaterFragment,
    // An unknown row word or a wrong number of fields.
    WrongRow,
    // A field that is malformed or out of range.
    FieldMalformed,
    // A name that is not declared.
    NameNotDeclared,
    // A 25th name.
    TooManyNames,
    // A load where rules are held.
    RulesHeld,
    // A text that is too long for a load.
    TextTooLong,
    // The output buffer is too short.
    BufferTooShort,
}

impl Refusal {
    // The number of the cause.
    pub fn number(self) -> u8
        ensures { result ≡ number self }
    {
        self as u8
    }

    // What the cause is about.
    pub fn layer(self) -> Layer
        ensures { layer_number result ≡ layer self }
    {
        match self {
            Refusal::FieldMalformed | Refusal::NameNotDeclared => Layer::Field,
            Refusal::PortsNotAllowed | Refusal::RangeReversed | Refusal::WrongRow => Layer::Row,
            _ => Layer::Whole,
        }
    }

    // Whether a load names the line where it met the cause.
    pub fn has_line(self) -> bool
        ensures { result ≡ has_line self }
    {
        match self {
            Refusal::WrongSize | Refusal::Shut | Refusal::WrongNetwork => false,
            Refusal::SheetTooLong | Refusal::RulesHeld | Refusal::TextTooLong => false,
            _ => true,
        }
    }

    // Whether a load names the field where it met the cause.
    pub fn has_field(self) -> bool
        ensures { result ≡ has_field self }
    {
        self.layer() == Layer::Field
    }
}
