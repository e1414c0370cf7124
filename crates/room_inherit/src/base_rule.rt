//! The rules on classes that extend others, by name.

ghost use Rattle.std.specs.Prelude.{◌≡◌};
ghost use Rattle.room_inherit.specs.BaseRules.{number_of};

/// A rule on classes that extend others. They are told in this order.
#[derive(Clone, Copy, Drop, PartialEq, Eq)]
pub enum BaseRule {
    /// Every base names an actor class.
    KnownBases,
    /// No class extends itself.
    NoCircle,
    /// Refinements stand in the top graph of a class with a base alone.
    RightPlaces,
    /// Refinements name what the base's chart has.
    KnownRefinements,
    /// No class refines one state or one transition twice.
    RefinedOnce,
    /// The flattened model is not too large.
    SmallModel,
}

impl BaseRule {
    /// The number by which a rule is told: 26 to 31.
    pub fn number(self) -> u8
        ensures { result ≡ number_of self }
    {
        match self {
            BaseRule::KnownBases => 26,
            BaseRule::NoCircle => 27,
            BaseRule::RightPlaces => 28,
            BaseRule::KnownRefinements => 29,
            BaseRule::RefinedOnce => 30,
            BaseRule::SmallModel => 31,
        }
    }
}
