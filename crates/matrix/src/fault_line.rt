// The line that tells a fault.
ghost use Rattle.std.specs.Prelude.{◌≡◌, ◌≤◌, ◌∷◌, length, decimal, MatchResult};
ghost use Rattle.text.specs.Buffers.{put};
ghost use Rattle.planwrite.specs.Writes.{Wrote, LacksRoom};
ghost use Rattle.matrix.specs.Lines.{word_of, fault_line};

use refusal::{Fault, Refusal};
use text::{Sink, Writer, put_number};

// The text that a fault is in.
#[derive(Clone, Copy)]
pub enum TextKind {
    Plan,
    Rules,
}

impl TextKind {
    // The word for the text. A `From` is no plainer: its one caller asks for a word, and converts nothing.
    fn word(self) -> &'static [u8]
        ensures { result.now ≡ word_of self }
    {
        match self {
            TextKind::Plan => b"plan",
            TextKind::Rules => b"rules",
        }
    }
}

// Puts a comma and a number.
fn put_field<S: Sink>(number: usize, sink: &mut S)
    requires { S.Sink.has_room sink.old (44 ∷ decimal number) }
    ensures { S.Sink.takes sink.old (44 ∷ decimal number) sink.new }
{
    sink.put_byte(b',');
    put_number(number, sink);
}

// Puts `fault,TEXT,LAYER,CAUSE,LINE,FIELD` and byte 10.
fn put_line<S: Sink>(kind: TextKind, fault: &Fault, sink: &mut S)
    requires { S.Sink.has_room sink.old (fault_line kind fault.now) }
    ensures { S.Sink.takes sink.old (fault_line kind fault.now) sink.new }
{
    sink.put(b"fault,");
    sink.put(kind.word());
    put_field(fault.layer().number() as usize, sink);
    put_field(fault.cause().number() as usize, sink);
    put_field(fault.line(), sink);
    put_field(fault.field(), sink);
    sink.put_byte(b'\n');
}

// The bytes that a fault line has at most: `fault,`, a word of 5, four times a comma with 20 digits, and byte 10.
const LONGEST: usize = 96;

// Writes the fault line at the start of a buffer that is long enough for any, and says how many bytes it is.
fn write_line(kind: TextKind, fault: &Fault, out: &mut [u8]) -> usize
    requires { LONGEST ≤ length out.old }
    ensures end { result ≡ length (fault_line kind fault.now) }
    ensures short { result ≤ LONGEST }
    ensures wrote { out.new ≡ put out.old 0 (fault_line kind fault.now) }
{
    // So that both are known to have at most 20 digits.
    prove!(fault.line() <= usize::MAX);
    prove!(fault.field() <= usize::MAX);
    let mut writer = Writer::new(out);
    put_line(kind, fault, &mut writer);
    writer.end()
}

// Writes the fault line, and says how many bytes it is. The line is written into memory of its own and copied: a walk that measures it and a second that writes it take longer.
pub fn write_fault(kind: TextKind, fault: &Fault, out: &mut [u8]) -> Result<usize, Refusal>
    ensures { MatchResult result (Wrote (fault_line kind fault.now) out.old out.new) (LacksRoom (fault_line kind fault.now) out.old out.new) }
{
    let mut line = [0; LONGEST];
    let end = write_line(kind, fault, &mut line);
    if end > out.len() {
        return Err(Refusal::BufferTooShort);
    }
    out[..end].copy_from_slice(&line[..end]);
    Ok(end)
}
