// What a kind of addresses offers: places on its line, a text for each, and the heads of its packets.
ghost use Rattle.std.specs.Prelude.{◌≡◌, ℕ, ◌+◌, ◌≤◌, true, List, ◌++◌, length, MatchOption, ◌≢◌};
ghost use Rattle.text.specs.Parts.{Lacks};
ghost use Rattle.address.specs.Layouts.{Layout, Whole, Says, Steady};

use crate::Header;
use line::Point;
use text::Sink;

// A point that has one text, which no other point has.
pub trait Address: Point {
    // the text of an address
    ghost text: { Self → List ℕ };

    // The address that has this text.
    fn read_text(bytes: &[u8]) -> Option<Self>
        ensures { MatchOption result ((a : Self) → text a ≢ bytes.now) (λ a. text a ≡ bytes.now) };

    // Puts the text. A `Display` is no plainer: its writer may fail after some of the text, and a sink with room takes it all.
    fn write_text<S: Sink>(&self, sink: &mut S)
        requires { S.Sink.has_room sink.old (text self.now) }
        ensures { S.Sink.takes sink.old (text self.now) sink.new };

    // how the head of a packet between such addresses stands in its bytes
    ghost layout: { Layout };

    // Whether a head of this kind may begin with this byte.
    fn begins(first: u8) -> bool
        ensures { result ≡ layout.begins first };

    // What the header says that the bytes begin with; none where they begin with no whole header of this kind.
    fn read_header(bytes: &[u8]) -> Option<Header<Self>>
        ensures { MatchOption result (Whole layout bytes.now → ⊥) (λ h. Says Self.Point.place layout bytes.now h) };

    // a text has at most 39 bytes
    ghost short: { (a : Self) → length (text a) ≤ 39 };

    // a text has no comma and no end of a row
    ghost plain: { (a : Self) → Lacks 44 (text a) × Lacks 10 (text a) };

    // a text tells the place
    ghost tells: { (a b : Self) → text a ≡ text b → Self.Point.place a ≡ Self.Point.place b };

    // a place has one text
    ghost told: { (a b : Self) → Self.Point.place a ≡ Self.Point.place b → text a ≡ text b };

    // what stands after a whole header does not change what it says
    ghost steady: { (bytes more : List ℕ) → Whole layout bytes → Steady layout bytes (bytes ++ more) };
}
