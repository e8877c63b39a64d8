// The texts of the reader's answers.
ghost use Rattle.std.specs.Prelude.{◌≡◌, ◌≤◌, length, decimal};
ghost use Rattle.text.specs.Buffers.{put};
ghost use Rattle.packets.specs.Answers.{parted, answer_text};

use address::Address;
use packet::Packet;
use refusal::Refusal;
use text::{Sink, Writer, put_number};

// Puts two addresses with a comma between them.
fn write_addresses<A: Address, S: Sink>(source: &A, destination: &A, sink: &mut S)
    requires { S.Sink.has_room sink.old (parted (A.Address.text source.now) (A.Address.text destination.now)) }
    ensures { S.Sink.takes sink.old (parted (A.Address.text source.now) (A.Address.text destination.now)) sink.new }
{
    source.write_text(sink);
    sink.put_byte(b',');
    destination.write_text(sink);
}

// Puts a protocol and a port with a comma between them.
fn write_service<S: Sink>(protocol: u8, port: u16, sink: &mut S)
    requires { S.Sink.has_room sink.old (parted (decimal protocol) (decimal port)) }
    ensures { S.Sink.takes sink.old (parted (decimal protocol) (decimal port)) sink.new }
{
    put_number(protocol as usize, sink);
    sink.put_byte(b',');
    put_number(port as usize, sink);
}

// The bytes that an answer has at most: two addresses of 39, a protocol of 3, a port of 5, and three commas. Three functions ask by a clause for a buffer that is so long: an array type would be narrower than the slice that they take.
pub(crate) const ANSWER: usize = 89;

// Writes an answer: the packet, or the number of the cause; and says where it ends.
pub(crate) fn write_answer<A: Address>(answer: &Result<Packet<A>, Refusal>, out: &mut [u8]) -> usize
    requires { ANSWER ≤ length out.old }
    ensures end { result ≡ length (answer_text A.Address.text answer.now) }
    ensures short { result ≤ ANSWER }
    ensures wrote { out.new ≡ put out.old 0 (answer_text A.Address.text answer.now) }
{
    let mut writer = Writer::new(out);
    match answer {
        Ok(packet) => {
            write_addresses(&packet.source(), &packet.destination(), &mut writer);
            writer.put_byte(b',');
            write_service(packet.protocol(), packet.port(), &mut writer);
        }
        Err(cause) => put_number(cause.number() as usize, &mut writer),
    }
    writer.end()
}
