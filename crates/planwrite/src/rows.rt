// The rows of a plan text, put one after another, up to one that the sink has no room for.
ghost use Rattle.names.specs.Texts.{texts};
ghost use Rattle.planwrite.specs.Written.{row_of, net_text, plan_text};

use address::Address;
use line::Run;
use names::Names;
use text::{Sink, Spendable};

// Puts the row of a run.
fn write_row<A: Address, S: Sink>(name: &[u8], run: &Run<A, u8>, sink: &mut S)
    requires { S.Sink.has_room sink.old (row_of A.Address.text name.now run.now) }
    ensures { S.Sink.takes sink.old (row_of A.Address.text name.now run.now) sink.new }
{
    sink.put(b"net,");
    sink.put(name);
    sink.put_byte(b',');
    run.low.write_text(sink);
    sink.put_byte(b',');
    run.high.write_text(sink);
    sink.put_byte(b'\n');
}

// Puts the rows of the network with this number and name.
fn write_net<A: Address, S: Spendable>(number: u8, name: &[u8], runs: &[Run<A, u8>], sink: &mut S)
    requires { S.Sink.has_room sink.old (net_text A.Address.text number name.now runs.now) }
    ensures { S.Sink.takes sink.old (net_text A.Address.text number name.now runs.now) sink.new }
{
    for run in runs {
        if run.label == number {
            write_row(name, run, sink);
            if sink.is_spent() {
                return;
            }
        }
    }
}

// Puts the rows of all networks.
pub(crate) fn write_nets<A: Address, S: Spendable>(names: &Names, runs: &[Run<A, u8>], sink: &mut S)
    requires { S.Sink.has_room sink.old (plan_text A.Address.text (texts names.now) runs.now) }
    ensures { S.Sink.takes sink.old (plan_text A.Address.text (texts names.now) runs.now) sink.new }
{
    for (i, name) in names.as_slice().iter().enumerate() {
        write_net(i as u8 + 1, name.text(), runs, sink);
        if sink.is_spent() {
            return;
        }
    }
}
