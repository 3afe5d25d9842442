//! Reading a sheet from left to right, word by word. That the sheet stays is a fact of two readers, before and after a call,
//! so no ghost field can say it: each contract does.
ghost use Rattle.std.specs.Prelude.{◌≡◌, ◌+◌, ◌≤◌, IfOk, if◌then◌else◌};
ghost use Rattle.sheets.specs.Reads.{Sees, stop, got, separator_at, keyword_at, number_at, spaced_at, either_at, byte_at, end_at};

use crate::fault::SheetFault;
use crate::words::{Placed, SPACE, Word, classed, text_at, value_up_to};

/// A sheet, and the place up to which it is read.
#[derive(Drop)]
pub struct Reader<'a> {
    pub(crate) sheet: &'a [u8],
    pub(crate) at: usize,
}

impl<'a> Reader<'a> {
    // Nothing that may stand is at the place.
    pub(crate) fn stopped(&self) -> SheetFault
        ensures { result ≡ stop self.now.sheet.now self.now.at }
    {
        if self.at < self.sheet.len() {
            SheetFault::Misplaced(self.at)
        } else {
            SheetFault::Ended(self.sheet.len())
        }
    }

    // The word at the place, which the reader goes past.
    pub(crate) fn next_word(&mut self) -> Option<Placed<'a>>
        ensures sees { Sees result self.new.at self.old.sheet.now self.old.at }
        ensures same { self.new.sheet ≡ self.old.sheet }
    {
        let at = self.at;
        let text = text_at(self.sheet, at);
        let word = classed(text)?;
        self.at += text.len();
        Some(Placed { word, at })
    }

    // One space or one line end.
    pub(crate) fn separator(&mut self, wanted: u8) -> Result<(), SheetFault>
        ensures reads { got result self.new.at ≡ separator_at wanted self.old.sheet.now self.old.at }
        ensures same { self.new.sheet ≡ self.old.sheet }
    {
        if self.skip(wanted) {
            Ok(())
        } else {
            Err(self.stopped())
        }
    }

    // The keyword wanted.
    pub(crate) fn keyword(&mut self, wanted: &[u8]) -> Result<(), SheetFault>
        ensures reads { got result self.new.at ≡ keyword_at wanted.now self.old.sheet.now self.old.at }
        ensures same { self.new.sheet ≡ self.old.sheet }
    {
        let Some(placed) = self.next_word() else {
            return Err(self.stopped());
        };
        match placed.word {
            Word::Keyword(text) if text == wanted => Ok(()),
            _ => Err(SheetFault::Misplaced(placed.at)),
        }
    }

    // A number from low to high.
    pub(crate) fn number(&mut self, low: u16, high: u16) -> Result<u16, SheetFault>
        ensures reads { got result self.new.at ≡ number_at low high self.old.sheet.now self.old.at }
        ensures same { self.new.sheet ≡ self.old.sheet }
        ensures within { IfOk result (λ n. (low ≤ n) × (n ≤ high)) }
    {
        let Some(placed) = self.next_word() else {
            return Err(self.stopped());
        };
        let Word::Number(text) = placed.word else {
            return Err(SheetFault::Misplaced(placed.at));
        };
        match value_up_to(text, high) {
            Some(n) if n >= low => Ok(n),
            _ => Err(SheetFault::OutOfRange(placed.at)),
        }
    }

    // A space and a number.
    pub(crate) fn spaced(&mut self, low: u16, high: u16) -> Result<u16, SheetFault>
        ensures reads { got result self.new.at ≡ spaced_at low high self.old.sheet.now self.old.at }
        ensures same { self.new.sheet ≡ self.old.sheet }
        ensures within { IfOk result (λ n. (low ≤ n) × (n ≤ high)) }
    {
        self.separator(SPACE)?;
        self.number(low, high)
    }

    // One of two keywords: is it the second? A bool, since the field that it fills is one.
    pub(crate) fn either(&mut self, no: &[u8], yes: &[u8]) -> Result<bool, SheetFault>
        ensures reads { got result self.new.at ≡ either_at no.now yes.now self.old.sheet.now self.old.at }
        ensures same { self.new.sheet ≡ self.old.sheet }
    {
        let Some(placed) = self.next_word() else {
            return Err(self.stopped());
        };
        match placed.word {
            Word::Keyword(text) if text == no => Ok(false),
            Word::Keyword(text) if text == yes => Ok(true),
            _ => Err(SheetFault::Misplaced(placed.at)),
        }
    }

    // Goes past a space or a line end, if it is there.
    pub(crate) fn skip(&mut self, wanted: u8) -> bool
        ensures is { result ≡ byte_at wanted self.old.sheet.now self.old.at }
        ensures next { self.new.at ≡ (if result then self.old.at + 1 else self.old.at) }
        ensures same { self.new.sheet ≡ self.old.sheet }
    {
        if self.sheet.get(self.at) == Some(&wanted) {
            self.at += 1;
            true
        } else {
            false
        }
    }

    // Nothing is left.
    pub(crate) fn end(&self) -> Result<(), SheetFault>
        ensures { got result self.now.at ≡ end_at self.now.sheet.now self.now.at }
    {
        if self.at < self.sheet.len() {
            return Err(SheetFault::Misplaced(self.at));
        }
        Ok(())
    }
}
