// The rows of the file of packets.
ghost use Rattle.std.specs.Prelude.{◌≡◌, ℕ, List, MatchOption, ◌≢◌};
ghost use Rattle.text.specs.Parts.{Lacks};
ghost use Rattle.packets.specs.Rows.{row_text};
ghost use Rattle.packets.specs.declared.row.Kind.{Kind as AnyKind};

use text::cut;

// The kinds of packets.
#[derive(Clone, Copy)]
pub(crate) enum Kind {
    Four,
    Six,
}

// What a row says: a kind, bytes in hexadecimal digits, and what is told of them.
#[derive(Clone, Copy)]
pub(crate) struct PacketRow<'t> {
    pub(crate) kind: Kind,
    pub(crate) digits: &'t [u8],
    pub(crate) told: &'t [u8],
}

// The parts of a row; none where it has another form.
pub(crate) fn part_row(row: &[u8]) -> Option<PacketRow<'_>>
    ensures { MatchOption result ((kind : AnyKind) (digits told : List ℕ) → Lacks 44 digits → row_text kind digits told ≢ row.now) (λ p. Lacks 44 p.digits.now × (row_text p.kind p.digits.now p.told.now ≡ row.now)) }
{
    let (kind, rest) = match row {
        [b'4', b',', rest @ ..] => (Kind::Four, rest),
        [b'6', b',', rest @ ..] => (Kind::Six, rest),
        _ => return None,
    };
    let parts = cut(rest, b',')?;
    Some(PacketRow {
        kind,
        digits: parts.front,
        told: parts.rest,
    })
}
