//! What faults mean, and how such a fault is mended.
use binding_expand::WiringFault;
use chart_reader::ChartFault;
use room_inherit::BaseRule;
use structure_check::FlatRule;
use view_pages::Meaning;

const fn of(fault: &'static str, cure: &'static str) -> Meaning {
    Meaning { fault, cure }
}

// Classes, names, types and values.

const ONE_SYSTEM: Meaning = Meaning {
    fault: "a model has one LogicalSystem, with one SubSystemRef that names a SubSystemClass",
    cure: "keep the one SubSystemRef that is to run, and let it name a SubSystemClass",
};

const CLASS_NAMES: Meaning = Meaning {
    fault: "two classes have one name, or a class has the name of a type of numbers",
    cure: "rename one of them",
};

const PART_NAMES: Meaning = Meaning {
    fault: "in an actor class a port, service point, attribute or reference has a name that another has, or \
     `frame`, or a word of the action language",
    cure: "rename it; docs/CHEATSHEET.md has all words that can't be names",
};

const MESSAGE_NAMES: Meaning = Meaning {
    fault: "two messages of a protocol class have one name; both directions count together",
    cure: "rename one of the two messages",
};

const FIELD_NAMES: Meaning = Meaning {
    fault: "two fields of a data class have one name",
    cure: "rename one of the two fields",
};

const KNOWN_TYPES: Meaning = Meaning {
    fault: "a type is named that is none of the seven types of numbers, and no data class",
    cure: "write int8, int16, int32, uint8, uint16, uint32, boolean, or the name of a data class",
};

const FINITE_DATA: Meaning = Meaning {
    fault: "a data class contains itself, by a field or through its fields' classes",
    cure: "let a number stand for the inner one, as its index or key",
};

const SMALL_CLASSES: Meaning = Meaning {
    fault: "a data class stands for more than 64 numbers, which is what a message carries at most",
    cure: "fewer fields; send several messages",
};

const FITTING_VALUES: Meaning = Meaning {
    fault: "an initial value lies out of its type's range, or stands at a data class",
    cure: "a value in range, or a wider type; the fields of a data class have values of their own",
};

// Ports, references and bindings.

const KNOWN_PROTOCOLS: Meaning = Meaning {
    fault: "a port or a service point names no protocol class",
    cure: "name a ProtocolClass behind the colon",
};

const OWN_PORTS: Meaning = Meaning {
    fault: "an `external Port` repeats no port of the Interface, or a ServiceImplementation no SPP, or one is \
     repeated twice",
    cure: "declare the port or the SPP in the Interface, and repeat it once",
};

const KNOWN_ACTORS: Meaning = Meaning {
    fault: "a reference names no actor class",
    cure: "name an ActorClass behind the colon",
};

const FINITE_ACTORS: Meaning = Meaning {
    fault: "an actor class contains itself through references, so the actors would have no end",
    cure: "break the circle: reach the outer actor by a port",
};

const REPLICATION: Meaning = Meaning {
    fault: "a number in brackets is not 1 to 256",
    cure: "write a number from 1 to 256",
};

const ANY_PLACES_AT_ENDS: Meaning = Meaning {
    fault: "a port `[*]` is a relay port, which needs a number of places",
    cure: "write a number of places, or repeat the port as `external Port` in the Structure",
};

const PLAIN_SUBSYSTEMS: Meaning = Meaning {
    fault: "references of a SubSystemClass have one name, or one is optional or imported",
    cure: "rename one; leave the word out, and put optional actors into an actor class",
};

const IMPORTED_ENDS: Meaning = Meaning {
    fault: "the class of an imported reference has a relay port, a port `[*]` or a SPP in its Interface",
    cure: "import a class whose Interface has end ports alone, with a number of places or none",
};

const BINDING_SIDES: Meaning = Meaning {
    fault: "a side of a binding names no relay port or internal port of the class itself, and no interface port \
     of one of its references",
    cure: "bind an end port of the Interface outside, in the class that has the reference; or correct the name",
};

const SIDES_AGREE: Meaning = Meaning {
    fault: "the ports of a binding have different protocols, or both send what the other one sends",
    cure: "write `conjugated` at one of the two ports; a relay port of the class itself is declared like the \
     inner one",
};

const ANY_PLACES_ONCE: Meaning = Meaning {
    fault: "both sides of a binding have `[*]`, or one with `[*]` names a replicated reference",
    cure: "write a number of places at one side",
};

// Layers, threads, mappings and sizes.

const KNOWN_LAYERS: Meaning = Meaning {
    fault: "a layer connection names an imported reference, or what serves is no SPP of a reference that is \
     neither imported nor replicated",
    cure: "name a single, fixed or optional reference and one of its SPPs behind satisfied_by",
};

const FEW_THREADS: Meaning = Meaning {
    fault: "two threads have one name, or there are more than 32",
    cure: "rename one, or map several actors to one thread",
};

const KNOWN_MAPPINGS: Meaning = Meaning {
    fault: "a mapping names a path or a thread that isn't there, or a path is mapped twice",
    cure: "write the whole path, as `room tree` prints it, with indexes in range; map it once",
};

const ALLOWED_MAPPINGS: Meaning = Meaning {
    fault: "a mapped path ends at an imported reference, or below an optional one at one that isn't fixed",
    cure: "map the container, or a fixed actor further inside",
};

const FEW_PARTS: Meaning = Meaning {
    fault: "there are more classes, messages, ports, references, states or numbers of attributes than may be",
    cure: "fewer of them; docs/LANGUAGE.md has the limits",
};

/// A rule of flat models.
pub fn rule_meaning(rule: FlatRule) -> Meaning {
    match rule {
        FlatRule::OneSystem => ONE_SYSTEM,
        FlatRule::ClassNames => CLASS_NAMES,
        FlatRule::PartNames => PART_NAMES,
        FlatRule::MessageNames => MESSAGE_NAMES,
        FlatRule::FieldNames => FIELD_NAMES,
        FlatRule::KnownTypes => KNOWN_TYPES,
        FlatRule::FiniteData => FINITE_DATA,
        FlatRule::SmallClasses => SMALL_CLASSES,
        FlatRule::FittingValues => FITTING_VALUES,
        FlatRule::KnownProtocols => KNOWN_PROTOCOLS,
        FlatRule::OwnPorts => OWN_PORTS,
        FlatRule::KnownActors => KNOWN_ACTORS,
        FlatRule::FiniteActors => FINITE_ACTORS,
        FlatRule::Replication => REPLICATION,
        FlatRule::AnyPlacesAtEnds => ANY_PLACES_AT_ENDS,
        FlatRule::PlainSubsystems => PLAIN_SUBSYSTEMS,
        FlatRule::ImportedEnds => IMPORTED_ENDS,
        FlatRule::BindingSides => BINDING_SIDES,
        FlatRule::SidesAgree => SIDES_AGREE,
        FlatRule::AnyPlacesOnce => ANY_PLACES_ONCE,
        FlatRule::KnownLayers => KNOWN_LAYERS,
        FlatRule::FewThreads => FEW_THREADS,
        FlatRule::KnownMappings => KNOWN_MAPPINGS,
        FlatRule::AllowedMappings => ALLOWED_MAPPINGS,
        FlatRule::FewParts => FEW_PARTS,
    }
}

/// A rule on classes that extend others.
pub fn base_meaning(rule: BaseRule) -> Meaning {
    match rule {
        BaseRule::KnownBases => of(
            "a class extends what is no actor class",
            "name an ActorClass behind `extends`",
        ),
        BaseRule::NoCircle => of(
            "a class extends itself, at once or through its bases",
            "leave one `extends` of the circle out; put what both classes need into a class of its own",
        ),
        BaseRule::RightPlaces => of(
            "a refinement stands in a class without `extends`, or inside of a state",
            "write it into the top graph of a class that extends another one, with the whole path: `RefinedState a.b`",
        ),
        BaseRule::KnownRefinements => of(
            "a refinement names no state of the base's chart, or no transition, or one of several with that name",
            "correct the path; give the transition of the base a name of its own",
        ),
        BaseRule::RefinedOnce => of(
            "a class refines one state or one transition twice",
            "write both into one refinement",
        ),
        BaseRule::SmallModel => of(
            "with all that its classes have from their bases the model has more than 2,000,000 tokens",
            "fewer or shorter classes that extend a long one",
        ),
    }
}

/// A fault of the wiring.
pub fn wiring_meaning(fault: WiringFault) -> Meaning {
    match fault {
        WiringFault::TooManySlots => of(
            "there are more than 4,096 slots for actors",
            "fewer actors, or smaller numbers in brackets",
        ),
        WiringFault::TooManyPlaces => of(
            "there are more than 65,536 places of ports",
            "fewer places, or smaller numbers in brackets",
        ),
        WiringFault::NoFreePlace => of(
            "a binding finds no free place at one of its ports",
            "more places at the port, `[*]` at an end port, or one binding less",
        ),
        WiringFault::SocketPair => of(
            "ports of two imported references are joined to each other",
            "import one of the two alone; an actor stands between two that are lent",
        ),
        WiringFault::SocketAway => of(
            "a port of an imported reference is joined to an actor of another thread",
            "one thread for both, or an actor between them",
        ),
    }
}

/// A fault of a chart.
pub fn chart_meaning(fault: ChartFault) -> Meaning {
    match fault {
        ChartFault::DepthAbove16 => of(
            "states nest more than 16 deep",
            "fewer states one inside another",
        ),
        ChartFault::BadPoint => of(
            "two states or points of a graph have one name, or a transition names what isn't in its graph, or a \
             trigger or a `cond` stands where none may, or a point doesn't go on once",
            "name what there is; triggers stand at transitions from states and transition points, `cond` at \
             branches of a choice point alone; each entry and exit point has one continuation",
        ),
        ChartFault::TwoInitials => of("a graph has two initial transitions", "keep one of them"),
        ChartFault::NoInitial => of(
            "the top graph, or the graph of a state that is entered as a whole, has no initial transition",
            "add `Transition begin: initial -> S`",
        ),
        ChartFault::NoDefault => of(
            "a choice point has no branch without a condition, or more than one",
            "leave `cond` out at one of its branches",
        ),
        ChartFault::ChoiceCycle => of(
            "transitions without a stop lead in a circle",
            "lead the circle to a state",
        ),
        ChartFault::BadTrigger => of(
            "a trigger or an `imported` names a port at which the actor doesn't work, or a message that doesn't \
             come in there",
            "name an end port of the class and a message that comes in; `external Port` makes a port of the \
             Interface one",
        ),
        ChartFault::BadAction => of(
            "a code can't be read, or names what the class doesn't have, or sends a wrong number of numbers",
            "docs/ACTIONS.md has the forms; each statement ends with a semicolon",
        ),
    }
}
