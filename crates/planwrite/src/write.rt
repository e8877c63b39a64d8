// A plan written as text.
ghost use Rattle.std.specs.Prelude.{◌≡◌, Err};
ghost use Rattle.refusal.specs.declared.refusal.Refusal.TheVariants as cause;
ghost use Rattle.plan.specs.Made.{Shut};
ghost use Rattle.planwrite.specs.Writes.{WritesText};
ghost use Rattle.planwrite.specs.Back.{Backs};

use crate::rows::write_nets;
use address::Address;
use plan::Plan;
use refusal::Refusal;
use text::{Room, Writer};

// Writes the text of the plan at the start of the buffer, and says how long it is.
pub fn write_plan<A: Address>(plan: &Plan<'_, A>, out: &mut [u8]) -> Result<usize, Refusal>
    ensures shut { Shut plan.now → (result ≡ Err cause.Shut) × (out.new ≡ out.old) }
    ensures wrote { WritesText A.Address.text A.Point.place A.Point.size plan.now out.old out.new result }
    ensures reads_back { Backs A.Address.text A.Point.place A.Point.size plan.now }
{
    if plan.is_shut() {
        return Err(Refusal::Shut);
    }
    let names = plan.names();
    let runs = plan.runs();
    let mut room = Room::new(out.len());
    write_nets(names, runs, &mut room);
    room.left().ok_or(Refusal::BufferTooShort)?;
    let mut writer = Writer::new(out);
    write_nets(names, runs, &mut writer);
    Ok(writer.end())
}
