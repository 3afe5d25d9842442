//! The names of the tokens so far, numbered by first use.
ghost use Rattle.std.specs.Prelude.{◌≡◌, [], length, if◌then◌else◌, Some, None, nat_le};
ghost use Rattle.std.specs.Option.{option_map};
ghost use Rattle.sheets.specs.Names.{names_of, index_of, with_name, text_of};

use crate::fixed_list::FixedList;

/// No token store has more tokens.
pub const MOST_TOKENS: usize = 16;

/// The names, in the order of their first use.
#[derive(Clone, Copy, Debug, PartialEq, Eq)]
pub struct Names<'a> {
    pub texts: FixedList<&'a [u8], MOST_TOKENS>,
}

impl<'a> Names<'a> {
    /// No names.
    pub fn new() -> Names<'a>
        ensures { names_of result ≡ [] }
    {
        Names {
            texts: FixedList::new(b""),
        }
    }

    // The number of a name that an agent line has.
    pub(crate) fn find(&self, text: &[u8]) -> Option<usize>
        ensures { result ≡ (if nat_le (length (names_of self.now)) (index_of (names_of self.now) text.now) then None else Some (index_of (names_of self.now) text.now)) }
    {
        self.texts
            .as_slice()
            .iter()
            .position(|known| *known == text)
    }

    // The number of a name, which is added if it is new, or none if sixteen others are there.
    pub(crate) fn number(&mut self, text: &'a [u8]) -> Option<usize>
        ensures number { result ≡ (if nat_le 16 (index_of (names_of self.old) text.now) then None else Some (index_of (names_of self.old) text.now)) }
        ensures names { names_of self.new ≡ (if nat_le 16 (index_of (names_of self.old) text.now) then names_of self.old else with_name (names_of self.old) text.now) }
    {
        let known = self.find(text);
        if known.is_some() {
            return known;
        }
        let token = self.texts.len();
        self.texts.try_push(text).ok()?;
        Some(token)
    }

    /// The name of a token, if there is one of that number.
    pub fn text(&self, token: usize) -> Option<&'a [u8]>
        ensures { option_map (λ x. x.now) result ≡ text_of (names_of self.now) token }
    {
        self.texts.get(token)
    }
}
