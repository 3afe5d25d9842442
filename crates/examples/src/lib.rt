//! Worked examples, proved from the definitions that the other crates' contracts name.
#![tactic(auto)]

ghost use Rattle.std.specs.Prelude.{◌≡◌};
ghost use Rattle.examples.specs.Examples.{WorkedExamplesHold};

/// Every worked example holds. The answer is always 0.
pub fn examples_hold() -> u8
    ensures answer { result ≡ 0 }
    ensures hold { WorkedExamplesHold }
{
    0
}
