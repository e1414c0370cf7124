//! Registrations: who asks the name table, who stands in it, and who was told so.

ghost use Rattle.law_names.specs.Created.{RunsNameTheCreated};
ghost use Rattle.law_names.specs.Registrations.{RunsKeepForms, RunsKeepRows, RunsRegisterTheLiving, QuietRegistrationsSettle};
ghost use Rattle.law_names.specs.Unjoined.{RunsLeaveJoinedUnnamed};

/// At every moment, what is on its way between service points and the name table goes between the
/// point's controller and controller 0; and every endpoint that it names, or that stands in the table, is
/// of a generation that was created.
pub fn names_are_of_the_created<M>()
    ensures { RunsNameTheCreated M }
{}

/// At every moment, what the owner of a service point says of its registration, what the point asks on the
/// way to the name table, how often it stands there, and what is replied to it on the way back, fit together
/// as a row of `IsRow` says. So none stands in the table twice. `forms`: what is on its way is counted there,
/// whatever actors register. `rows`: the rows, where actors register service points alone. `living`: only
/// service points of live actors have registrations then.
pub fn registrations_are_in_rows<M>()
    ensures forms { RunsKeepForms M }
    ensures rows { RunsKeepRows M }
    ensures living { RunsRegisterTheLiving M }
{}

/// Where a run is quiet at its end, registrations are settled: who stands in the name table is of a live
/// actor, and registered there; and each registration of a live actor is none or registered, and registered
/// exactly where it stands in the table. Premises: actors register service points alone, and each slot's
/// owner is a controller.
pub fn registrations_settle<M>()
    ensures { QuietRegistrationsSettle M }
{}

/// At every moment, a service access point that the model joins is neither registered nor asks for a name.
pub fn joined_users_have_no_name<M>()
    ensures { RunsLeaveJoinedUnnamed M }
{}
