//! The published attack on the original handshake.
ghost use Rattle.std.specs.Prelude.{◌≡◌};
ghost use Rattle.handshake.specs.Attack.{attack_labels, Attack};

/// The labels of the attack, with one initiator, one responder and room for one message: a run to a breach. With Lowe's
/// test the eighth of them is not possible.
pub fn attack() -> [usize; 10]
    ensures labels { result ≡ attack_labels }
    ensures stands { Attack }
{
    [0, 12, 79, 16, 12, 20, 16, 12, 388, 16]
}
