// Deciding a packet: two look-ups in the plan, and one in the sheet of the pair.
ghost use Rattle.std.specs.Prelude.{◌≡◌};
ghost use Rattle.packet.specs.Heads.{head_of};
ghost use Rattle.ruleset.specs.Packets.{Planned, Sees, decide_answer};
ghost use Rattle.ruleset.specs.Views.{register_of};

use crate::Ruleset;
use line::Point;
use packet::Packet;
use plan::Plan;
use refusal::Refusal;
use rules::{Action, Pair};

impl<'a> Ruleset<'a> {
    // What the rules decide of a packet between the networks of a plan; none where no rule in force covers it.
    pub fn decide<A: Point>(
        &self,
        plan: &Plan<'_, A>,
        packet: &Packet<A>,
    ) -> Result<Option<Action>, Refusal>
        ensures { (by : Planned) → Sees A.Point.place A.Point.size by plan.now → result ≡ decide_answer (register_of self.now) by (head_of A.Point.place packet.now) }
    {
        self.check_ready()?;
        if plan.is_shut() {
            return Err(Refusal::Shut);
        }
        if plan.networks() != self.sheets.networks {
            return Err(Refusal::WrongNetwork);
        }
        let from = plan.network_of(&packet.source())?;
        let to = plan.network_of(&packet.destination())?;
        let pair = Pair { from, to };
        self.check_pair(pair)?;
        Ok(self.decision_at(pair, &packet.service()))
    }
}
