//! What ports of joined places, and service points whose protocols have one number, have in common.
ghost use Rattle.law_models.specs.joined_ports.Protocols.{ModelsJoinOneProtocol, ModelsLinkOneProtocol};

/// In the wiring of a model that keeps all rules and has no fault the ports of two places that are joined, by bindings
/// or by layer connections, have one protocol: they have the same messages, under the same numbers.
pub fn joined_ports_have_one_protocol()
    ensures { ModelsJoinOneProtocol }
{}

/// In the wiring of a model that keeps all rules service points whose protocols have one number, by which the name
/// table finds the service of a point, have one protocol: they have the same messages, under the same numbers.
pub fn linked_ports_have_one_protocol()
    ensures { ModelsLinkOneProtocol }
{}
