// What a row of a plan text says.
ghost use Rattle.std.specs.Prelude.{◌≡◌, ℕ, ◌≤◌, true, List, MatchOption, MatchResult};
ghost use Rattle.refusal.specs.declared.refusal.Refusal.TheVariants as cause;
ghost use Rattle.refusal.specs.Faults.{fault};
ghost use Rattle.names.specs.Names.{well_formed};
ghost use Rattle.planload.specs.Loads.{Net, Unread};

use address::Address;
use names::is_well_formed;
use refusal::{Fault, Refusal};
use text::{Field, Fields, Row};

// The fields of a row `net,NAME,LOW,HIGH` after its word.
#[derive(Drop)]
struct NetRow<'t> {
    name: Field<'t>,
    low: Field<'t>,
    high: Field<'t>,
}

// The fields of a row, if it has the word and as many fields as a declaration.
fn part_row(row: &[u8]) -> Option<NetRow<'_>>
    ensures shape { MatchOption result ((name low high : List ℕ) → Net row.now name low high → ⊥) (λ p. Net row.now p.name.bytes.now p.low.bytes.now p.high.bytes.now) }
    ensures numbers { MatchOption result (0 ≤ 0) (λ p. (p.name.number ≡ 2) × (p.low.number ≡ 3) × (p.high.number ≡ 4)) }
{
    let mut fields = Fields::new(row);
    let word = fields.next()?;
    let name = fields.next()?;
    let low = fields.next()?;
    let high = fields.next()?;
    if word.bytes != b"net".as_slice() || fields.next().is_some() {
        return None;
    }
    Some(NetRow { name, low, high })
}

// What a row says: a name and the range that it is declared for.
#[derive(Drop)]
pub(crate) struct Entry<'t, A> {
    pub(crate) name: &'t [u8],
    pub(crate) low: A,
    pub(crate) high: A,
}

// The fault of a malformed field of the row in a line.
fn malformed(line: usize, field: &Field<'_>) -> Fault
    ensures { result ≡ fault cause.FieldMalformed line field.now.number }
{
    Fault::new(Refusal::FieldMalformed, line, field.number)
}

// What the row says, or its fault; the fields are read from the left.
pub(crate) fn read_row<'t, A: Address>(row: &Row<'t>) -> Result<Entry<'t, A>, Fault>
    ensures { MatchResult result (λ e. Net row.now.bytes.now e.name.now (A.Address.text e.low) (A.Address.text e.high) × (well_formed e.name.now ≡ true)) (Unread A.Address.text row.now.line row.now.bytes.now) }
{
    let fields = part_row(row.bytes).ok_or(Fault::new(Refusal::WrongRow, row.line, 0))?;
    if !is_well_formed(fields.name.bytes) {
        return Err(malformed(row.line, &fields.name));
    }
    let low = A::read_text(fields.low.bytes).ok_or(malformed(row.line, &fields.low))?;
    let high = A::read_text(fields.high.bytes).ok_or(malformed(row.line, &fields.high))?;
    Ok(Entry {
        name: fields.name.bytes,
        low,
        high,
    })
}
