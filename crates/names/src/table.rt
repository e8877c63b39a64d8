// The table of names: a name by its number, and a number by its name.
ghost use Rattle.std.specs.Prelude.{◌≡◌, ◌+◌, ◌-◌, ◌<◌, ◌≤◌, [], ◌∷◌, ◌++◌, map, length, position, MatchOption};
ghost use Rattle.std.specs.Str.{bytes_eq};
ghost use Rattle.names.specs.Texts.{text_of, texts};
ghost use Rattle.names.specs.Names.{number_in, declared, Numbered};

use crate::{Name, Names};
use few::Few;

impl Name {
    // The name with these bytes, of which there are at most 12.
    fn new(text: &[u8]) -> Name
        requires { length text.now ≤ 12 }
        ensures { text_of result ≡ text.now }
    {
        let mut bytes = Few::new(0);
        for b in text {
            bytes.push(*b);
        }
        Name { bytes }
    }

    // The bytes of the name.
    pub fn text(&self) -> &[u8]
        ensures { result.now ≡ text_of self.now }
    {
        self.bytes.as_slice()
    }
}

// The place of the first name with these bytes.
fn place(names: &[Name], text: &[u8]) -> Option<usize>
    ensures { result ≡ position (λ n. bytes_eq (text_of n) text.now) names.now }
{
    names.iter().position(|name| name.text() == text)
}

impl Names {
    // No names.
    pub fn new() -> Names
        ensures { texts result ≡ [] }
    {
        let unused = Name { bytes: Few::new(0) };
        Names {
            list: Few::new(unused),
        }
    }

    // The names in the order of their numbers.
    pub fn as_slice(&self) -> &[Name]
        ensures { map text_of result.now ≡ texts self.now }
    {
        self.list.as_slice()
    }

    // How many names there are.
    pub fn count(&self) -> u8
        ensures { result ≡ length (texts self.now) }
    {
        self.list.len() as u8
    }

    // The number that a name has, or would get as the next one.
    pub fn number(&self, text: &[u8]) -> u8
        ensures number { result ≡ number_in (texts self.now) text.now }
        ensures few { result ≤ length (texts self.now) + 1 }
    {
        self.find(text).unwrap_or(self.count() + 1)
    }

    // The number of a name that is in the table.
    pub fn find(&self, text: &[u8]) -> Option<u8>
        ensures { result ≡ declared (texts self.now) text.now }
    {
        let at = place(self.as_slice(), text)?;
        Some(at as u8 + 1)
    }

    // Takes a name in as the last one.
    pub fn add(&mut self, text: &[u8])
        requires few { length (texts self.old) < 24 }
        requires short { length text.now ≤ 12 }
        ensures { texts self.new ≡ texts self.old ++ (text.now ∷ []) }
    {
        self.list.push(Name::new(text));
    }

    // The name with this number.
    pub fn text(&self, number: u8) -> Option<&[u8]>
        ensures { MatchOption result (1 ≤ number → length (texts self.now) < number) (λ t. Numbered (texts self.now) number t.now) }
    {
        let at = number.checked_sub(1)?;
        let name = self.as_slice().get(usize::from(at))?;
        Some(name.text())
    }
}
