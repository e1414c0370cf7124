//! What a done run settles needs of a model: of its wiring, and of what its actors may ask for.
//!
//! `law_agreement` says that all controllers agree on who lives where a run is done, under premises on
//! the wiring and on the actors. Models that keep all rules and whose charts have no fault meet them.
//! No code: the laws.

pub mod wirings;

ghost use Rattle.law_models.specs.settled_models.Agreed.{ModelsRegisterPoints, ModelRunsAreAgreed};
ghost use Rattle.law_models.specs.settled_models.Agreeing.{ModelRunsAgree};
ghost use Rattle.law_models.specs.settled_models.Living.{OthersLive};
ghost use Rattle.law_models.specs.settled_models.Open.{ChartsAreOpen, ChartsAreRanked, ChartsSendWorded};

/// In the wiring of a model that keeps all rules the container of an optional slot, where another controller
/// owns it, lives from the start.
pub fn others_live_from_start()
    ensures { OthersLive }
{}

/// The programs of a model's chart send at the priorities that have words, 1 to 5, alone, and so do the
/// tables that are compiled from the chart.
pub fn charts_send_worded()
    ensures { ChartsSendWorded }
{}

/// So none of them sends at priority 0, which is the system's.
pub fn charts_are_open()
    ensures { ChartsAreOpen }
{}

/// But each sends at one of the six priorities.
pub fn charts_are_ranked()
    ensures { ChartsAreRanked }
{}

/// In the world that the journals of a done run of a model lead to, all controllers agree on which actors
/// live: directories tell what lives, the parts of an optional slot live with it, and a live optional slot
/// has a live container.
pub fn done_runs_agree()
    ensures { ModelRunsAgree }
{}

/// The actors of a model that keeps all rules and has no fault register service points alone.
pub fn models_register_points()
    ensures { ModelsRegisterPoints }
{}

/// In the world that the journals of a done run of a model lead to, all controllers agree: on who lives, on
/// imports, on who is linked by name, and on peers.
pub fn done_runs_are_agreed()
    ensures { ModelRunsAreAgreed }
{}
