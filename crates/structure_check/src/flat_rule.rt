//! The rules of flat models, by name.

ghost use Rattle.std.specs.Prelude.{◌≡◌};
ghost use Rattle.structure_check.specs.List.{rule_of};

/// A rule of flat models, in which each class has all that it has from its bases. They are told in this
/// order.
#[derive(Clone, Copy, Drop, PartialEq, Eq)]
pub enum FlatRule {
    /// There is one system, with one subsystem of a known class.
    OneSystem,
    /// Classes have different names.
    ClassNames,
    /// What stands in an actor class has different names.
    PartNames,
    /// The messages of a protocol have different names.
    MessageNames,
    /// The fields of a data class have different names.
    FieldNames,
    /// Types are known.
    KnownTypes,
    /// No data class contains itself.
    FiniteData,
    /// No data class stands for too many numbers.
    SmallClasses,
    /// Initial values fit.
    FittingValues,
    /// Protocols are known.
    KnownProtocols,
    /// What repeats a port or a service point of the interface is there once.
    OwnPorts,
    /// The classes of references are known.
    KnownActors,
    /// No actor class contains itself.
    FiniteActors,
    /// Numbers in brackets are in range.
    Replication,
    /// Ports with `[*]` are end ports.
    AnyPlacesAtEnds,
    /// The references of subsystems are plain.
    PlainSubsystems,
    /// Imported classes have end ports alone.
    ImportedEnds,
    /// The sides of bindings exist.
    BindingSides,
    /// The sides of bindings agree.
    SidesAgree,
    /// One side of a binding at most has `[*]`.
    AnyPlacesOnce,
    /// Layer connections name what there is.
    KnownLayers,
    /// Threads have different names, and are few.
    FewThreads,
    /// Mappings name what there is, once.
    KnownMappings,
    /// Mappings end where they may.
    AllowedMappings,
    /// There are not too many parts.
    FewParts,
}

impl FlatRule {
    /// The number by which a rule is told.
    pub fn number(self) -> u8
        ensures { result ≡ (rule_of self).number }
    {
        match self {
            FlatRule::OneSystem => 1,
            FlatRule::ClassNames => 2,
            FlatRule::PartNames => 3,
            FlatRule::MessageNames => 4,
            FlatRule::FieldNames => 5,
            FlatRule::KnownTypes => 6,
            FlatRule::FiniteData => 7,
            FlatRule::SmallClasses => 8,
            FlatRule::FittingValues => 9,
            FlatRule::KnownProtocols => 10,
            FlatRule::OwnPorts => 11,
            FlatRule::KnownActors => 12,
            FlatRule::FiniteActors => 13,
            FlatRule::Replication => 14,
            FlatRule::AnyPlacesAtEnds => 15,
            FlatRule::PlainSubsystems => 16,
            FlatRule::ImportedEnds => 17,
            FlatRule::BindingSides => 18,
            FlatRule::SidesAgree => 19,
            FlatRule::AnyPlacesOnce => 20,
            FlatRule::KnownLayers => 21,
            FlatRule::FewThreads => 22,
            FlatRule::KnownMappings => 23,
            FlatRule::AllowedMappings => 24,
            FlatRule::FewParts => 25,
        }
    }
}
