//! A verdict: what the judge found true. Only the judge makes one, and it is spent by filing.
ghost use Rattle.std.specs.Prelude.{◌≡◌};
ghost use Rattle.findings.specs.Truths.{IsTrueOf};

use bodies::kind::Kind;
use sheets::arrangement::Arrangement;

/// What the judge found true of a docket: its number, its model, and the kind of finding. Filing spends it.
#[derive(Drop)]
pub struct Verdict {
    pub(crate) number: u16,
    pub(crate) model: Arrangement,
    pub(crate) kind: Kind,
    ghost holds: { IsTrueOf model kind },
}

impl Verdict {
    /// The number of the docket whose sheet was judged.
    pub fn number(&self) -> u16
        ensures { result ≡ self.now.number }
    {
        self.number
    }

    /// The model that the sheet describes.
    pub fn model(&self) -> Arrangement
        ensures { result ≡ self.now.model }
    {
        self.model
    }

    /// What was judged of the model is true of it.
    pub fn kind(&self) -> Kind
        ensures is { result ≡ self.now.kind }
        ensures truth { IsTrueOf self.now.model result }
    {
        self.kind
    }
}
