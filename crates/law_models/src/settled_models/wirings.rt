//! What agreement on imports and on peers asks of wirings, of models that keep all rules and have no fault.
ghost use Rattle.law_models.specs.settled_models.Wirings.{ModelsHaveOwners, ModelsKeepPlacesLocal, ModelsContainPlaces, ModelsAreMutual};

/// In the wiring of a model the owner of each slot is a controller.
pub fn owners_are_there()
    ensures { ModelsHaveOwners }
{}

/// In the wiring of a model an imported slot is owned by the controller of its container.
pub fn places_are_local()
    ensures { ModelsKeepPlacesLocal }
{}

/// In the wiring of a model that keeps all rules each imported slot has a container.
pub fn places_have_containers()
    ensures { ModelsContainPlaces }
{}

/// In the wiring of a model that keeps all rules and has no fault partners are each other's; what is joined to
/// a place of an imported slot has that slot's owner; the controllers that may have to know of a slot are told
/// of it; and no service point of an imported slot is joined.
pub fn partners_are_mutual()
    ensures { ModelsAreMutual }
{}
