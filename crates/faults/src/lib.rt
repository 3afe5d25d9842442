//! What a refusal tells: its number, and the values beside it.
#![tactic(auto)]

ghost use Rattle.std.specs.Prelude.{◌≡◌, ℕ};

/// The values that a fault has beside its number.
#[derive(Clone, Copy, Debug, PartialEq, Eq)]
pub enum Values {
    Nothing,
    One(usize),
    Two(usize, usize),
}

/// Why a call is refused. Each kind of fault says its number and its values in all cases.
pub trait Fault {
    ghost use Rattle.faults.specs.declared.Values.{Values};

    ghost number_of: { Self → ℕ };

    ghost values_of: { Self → Values };

    /// The number by which the call's faults are told apart.
    fn number(&self) -> u8
        ensures { result ≡ number_of self.now };

    /// What stands beside the number.
    fn values(&self) -> Values
        ensures { result ≡ values_of self.now };
}
