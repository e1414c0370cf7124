//! The definition of the texts, tried by hand.
ghost use Rattle.made_model.specs.Example.{TextsOfTwo};

/// The texts of a ring of two, which the prover computes.
pub fn ring_of_two()
    ensures { TextsOfTwo }
{}
