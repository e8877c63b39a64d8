// What is read of a row's bytes, held to what the row tells.
ghost use Rattle.std.specs.Prelude.{◌≡◌, ℕ, ◌<◌, ◌≤◌, List, length, take, Decides, MatchOption, ◌≢◌};
ghost use Rattle.std.specs.List.{AllByRecursion};
ghost use Rattle.packets.specs.Rows.{hexed, row_text};
ghost use Rattle.packets.specs.Answers.{Answered, Judges};
ghost use Rattle.packets.specs.declared.row.Kind.{Kind as AnyKind};

use crate::answer::{ANSWER, write_answer};
use crate::hex::read_hex;
use crate::row::{Kind, part_row};
use address::{Address, Ipv4, Ipv6};
use packet::read_packet;

// Where the written answer ends, and whether it is what is told. The end stands beside the buffer, since the caller lends the memory that the answer is written into.
#[derive(Clone, Copy)]
pub(crate) struct Judged {
    pub(crate) end: usize,
    pub(crate) agrees: bool,
}

// Reads the bytes as a packet, writes the answer, and compares it with what is told.
fn judge<A: Address>(bytes: &[u8], told: &[u8], out: &mut [u8]) -> Judged
    requires { ANSWER ≤ length out.old }
    ensures end { result.end ≤ length out.new }
    ensures answers { Answered A.Point.place A.Address.text A.Address.layout bytes.now (take result.end out.new) }
    ensures agrees { Decides result.agrees (take result.end out.new ≡ told.now) }
{
    let answer = read_packet::<A>(bytes);
    let end = write_answer(&answer, out);
    let agrees = &out[0..end] == told;
    Judged { end, agrees }
}

// Judges a row; none where it has another form, or more than 256 bytes.
pub(crate) fn judge_row(row: &[u8], out: &mut [u8]) -> Option<Judged>
    requires { ANSWER ≤ length out.old }
    ensures end { MatchOption result (0 ≤ 0) (λ judged. judged.end ≤ length out.new) }
    ensures judges { MatchOption result ((kind : AnyKind) (bytes told : List ℕ) → AllByRecursion (λ b. b < 256) bytes → length bytes ≤ 256 → row_text kind (hexed bytes) told ≢ row.now) (λ judged. Judges row.now (take judged.end out.new) judged.agrees) }
{
    let parts = part_row(row)?;
    let mut buffer = [0; 256];
    let bytes = read_hex(parts.digits, &mut buffer)?;
    // A `match`, since a kind picks a type here: a closure or a table of functions for each would be no plainer.
    match parts.kind {
        Kind::Four => Some(judge::<Ipv4>(bytes, parts.told, out)),
        Kind::Six => Some(judge::<Ipv6>(bytes, parts.told, out)),
    }
}
