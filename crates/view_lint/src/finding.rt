//! What is told of a model.
use view_pages::Meaning;

/// What a finding is about, in the order in which findings are told.
#[derive(Clone, Copy, Drop, PartialEq, Eq, PartialOrd, Ord)]
pub(crate) enum Kind {
    UnjoinedSend,
    UnjoinedIndex,
    UnenteredState,
    UntakenMessage,
    LostDeferral,
    DeadBranch,
    UnfilledReference,
    WideNumber,
}

/// A finding: what it is about, the bytes of its place, from the first up to the one behind the last, and what is told
/// of it in particular.
#[derive(Drop)]
pub(crate) struct Finding {
    pub kind: Kind,
    pub start: usize,
    pub end: usize,
    pub detail: Vec<u8>,
}

const fn of(fault: &'static str, cure: &'static str) -> Meaning {
    Meaning { fault, cure }
}

impl Kind {
    /// What findings of this kind are called.
    pub(crate) fn title(self) -> &'static str {
        match self {
            Kind::UnjoinedSend => "a send at a place that is joined to nothing",
            Kind::UnjoinedIndex => "an index of a replicated reference that stays unjoined",
            Kind::UnenteredState => "a state that is never entered",
            Kind::UntakenMessage => "a message that no state takes",
            Kind::LostDeferral => "a deferral without a recall",
            Kind::DeadBranch => "a branch of a choice point that is never taken",
            Kind::UnfilledReference => "a reference that no action fills",
            Kind::WideNumber => "a number outside its type",
        }
    }

    /// What is meant, and the cure.
    pub(crate) fn meaning(self) -> Meaning {
        match self {
            Kind::UnjoinedSend => of(
                "what is sent there gets to nobody, and the journal has a note `unbound`",
                "a binding or a layer connection that joins the place, or no send there",
            ),
            Kind::UnjoinedIndex => of(
                "the port leads nowhere there, while it is joined at another index of the reference",
                "as many places at the other side as there are actors, or fewer actors",
            ),
            Kind::UnenteredState => of(
                "no way of transitions leads to it from the initial one",
                "a transition that leads there, or no such state",
            ),
            Kind::UntakenMessage => of(
                "no transition names the message at this port, so it is unhandled wherever it comes",
                "a transition that takes it, if only to stay where it is; or another protocol",
            ),
            Kind::LostDeferral => of(
                "no action of the class recalls, so a deferred message never comes back",
                "`recall;` or `recallAll;` where the message can be taken",
            ),
            Kind::DeadBranch => of(
                "the branches are tried in order, and the one without a condition comes last",
                "the special condition before the general one, or no such branch",
            ),
            Kind::UnfilledReference => of(
                "nobody but an action of this class can put an actor there",
                "`incarnate` for an optional reference, `import` for an imported one; or no such reference",
            ),
            Kind::WideNumber => of(
                "the number is reduced to the type of the message's number, so another one comes in",
                "a number in the range of the type, or a wider type",
            ),
        }
    }
}
