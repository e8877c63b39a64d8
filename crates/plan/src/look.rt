// What a plan tells: the network of an address, the number of a name, the name of a number, and the runs of its line.
ghost use Rattle.std.specs.Prelude.{◌≡◌, ◌<◌, ◌≤◌, List, length, take, None, Ok, Err, MatchOption, ◌==◌};
ghost use Rattle.refusal.specs.declared.refusal.Refusal.TheVariants as cause;
ghost use Rattle.names.specs.Names as said;
ghost use Rattle.plan.specs.Declarations.{Declaration, names_of, network_of};
ghost use Rattle.plan.specs.Made.{Made, Shut};

use crate::Plan;
use line::{Point, Run, look_up};
use names::Names;
use refusal::Refusal;

// `Made ..` is a premise of each clause: which declarations made a plan is no function of what it holds, so that each clause has to name the list. An invariant, which could only say that there is one, is no plainer.
impl<'a, A: Point> Plan<'a, A> {
    // Whether the plan was opened with rows that a plan may not have.
    pub fn is_shut(&self) -> bool
        ensures { result ≡ (self.now.count == 0) }
    {
        self.count == 0
    }

    // How many rows the caller lent.
    pub fn rows(&self) -> usize
        ensures { result ≡ length self.now.rows.now }
    {
        self.rows.len()
    }

    // The runs of the line; none where the plan is shut.
    pub fn runs(&self) -> &[Run<A, u8>]
        ensures { result.now ≡ take self.now.count self.now.rows.now }
    {
        &self.rows[..self.count]
    }

    // The names, by which the numbers go.
    pub fn names(&self) -> &Names
        ensures { result.now ≡ self.now.names }
    {
        &self.names
    }

    // How many networks have a name; none where the plan is shut.
    pub fn networks(&self) -> u8
        ensures shut { Shut self.now → result ≡ 0 }
        ensures told { (ds : List Declaration) → Made A.Point.place A.Point.size ds self.now → result ≡ length (names_of ds) }
    {
        self.names.count()
    }

    // The number of the network that holds an address; 0 where none does.
    pub fn network_of(&self, address: &A) -> Result<u8, Refusal>
        ensures shut { Shut self.now → result ≡ Err cause.Shut }
        ensures told { (ds : List Declaration) → Made A.Point.place A.Point.size ds self.now → result ≡ Ok (network_of ds (A.Point.place address.now)) }
    {
        look_up(self.runs(), address).ok_or(Refusal::Shut)
    }

    // The number of a declared name; none where the plan is shut.
    pub fn number_of(&self, name: &[u8]) -> Option<u8>
        ensures shut { Shut self.now → result ≡ None }
        ensures told { (ds : List Declaration) → Made A.Point.place A.Point.size ds self.now → result ≡ said.declared (names_of ds) name.now }
    {
        self.names.find(name)
    }

    // The name of a network by its number; none where the plan is shut.
    pub fn name_of(&self, number: u8) -> Option<&[u8]>
        ensures shut { Shut self.now → MatchOption result (0 ≤ 0) (λ _. ⊥) }
        ensures told { (ds : List Declaration) → Made A.Point.place A.Point.size ds self.now → MatchOption result (1 ≤ number → length (names_of ds) < number) (λ t. said.Numbered (names_of ds) number t.now) }
    {
        self.names.text(number)
    }
}
