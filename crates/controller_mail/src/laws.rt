//! The laws: the journal's entries leave just this state.
ghost use Rattle.controller_mail.specs.Laws.{StartLeaves, FetchLeaves, PostLeaves, TurnLeaves, EnvironmentLeaves, PostIsTakenBack};

/// Over any kind of body: behind the entries of the start, a controller's journal is a replay of the
/// controller from its start to the state that its mail and its body are. It is so after the start, and
/// each fetch, turn and post keeps it.
pub fn mail_leaves<B>()
    ensures start { StartLeaves B }
    ensures fetch { FetchLeaves B }
    ensures turn { TurnLeaves B }
    ensures post { PostLeaves B }
{}

/// The environment's journal is a replay, and each post of its next line keeps it so; a post that is
/// taken back leaves what was before it.
pub fn environment_leaves<B>()
    ensures post { EnvironmentLeaves B }
    ensures back { PostIsTakenBack }
{}
