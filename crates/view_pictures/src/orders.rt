//! Which transitions of a graph are tried in an order that decides.
use indexmap::IndexMap;
use room_ast::{Event, EventMessage, GraphItem, Source, Target, Transition, Trigger, Triggers};
use std::alloc::{AllocError, Global};

/// Transitions of a graph of which the first one that fits is taken: those of a state, those of a choice point, and
/// those of all transition points together.
#[derive(Clone, Copy, PartialEq, Eq, Hash)]
struct Group<'a> {
    is_choice: bool,
    /// The state or the choice point; empty for the transition points.
    name: &'a [u8],
}

/// What a transition of a group waits for: a message at a port, or a condition.
#[derive(Clone, Copy, PartialEq, Eq, Hash)]
struct Wait<'a> {
    group: Group<'a>,
    message: &'a [u8],
    port: &'a [u8],
}

/// The order of the transitions of a graph, as they are asked one after another.
#[derive(Drop)]
pub struct Orders<'a> {
    /// For each transition whether another one of its group waits for the same.
    decides: Vec<bool>,
    /// How many of each group have got a number.
    numbered: IndexMap<Group<'a>, usize>,
    asked: usize,
}

/// The group of a transition; none where it isn't triggered and is no branch. A bare name is a state's, or else a
/// choice point's; a choice point has no triggers.
fn group_of(transition: &Transition) -> Option<Group<'_>> {
    let is_choice = triggers_of(transition).is_none();
    match &transition.source {
        Source::Initial => None,
        Source::At(Target::Bare(name)) => Some(Group {
            is_choice,
            name: name.as_bytes(),
        }),
        Source::At(Target::Choice(name)) => Some(Group {
            is_choice: true,
            name: name.as_bytes(),
        }),
        Source::At(Target::My(_)) if !is_choice => Some(Group {
            is_choice: false,
            name: b"",
        }),
        Source::At(Target::My(_) | Target::Of { .. }) => None,
    }
}

fn triggers_of(transition: &Transition) -> Option<&Triggers> {
    match &transition.body {
        Some(body) => body.triggers.as_ref(),
        None => None,
    }
}

/// Whether a transition is a branch with a condition.
fn has_condition(transition: &Transition) -> bool {
    match &transition.body {
        Some(body) => body.condition.is_some(),
        None => false,
    }
}

pub fn message_of(event: &Event) -> &[u8] {
    match &event.message {
        EventMessage::Named(name) => name.as_bytes(),
        EventMessage::Imported => b"imported",
    }
}

/// The transitions that wait for something, each by its number.
#[derive(Drop)]
struct Waiting<'a> {
    first: IndexMap<Wait<'a>, usize>,
    decides: Vec<bool>,
}

impl<'a> Waiting<'a> {
    fn new(alloc: Global) -> Waiting<'a> {
        Waiting {
            first: IndexMap::new(alloc),
            decides: Vec::new(alloc),
        }
    }

    /// For each transition whether another one of its group waits for the same.
    fn into_decides(self) -> Vec<bool> {
        let Waiting { decides, .. } = self;
        decides
    }

    fn decide(&mut self, number: usize) {
        if let Some(decides) = self.decides.as_mut_slice().get_mut(number) {
            *decides = true;
        }
    }

    /// Notes that a transition waits for something.
    fn wait(&mut self, number: usize, wait: Wait<'a>) -> Result<(), AllocError> {
        match self.first.get(&wait).copied() {
            Some(other) if other == number => {}
            Some(other) => {
                self.decide(other);
                self.decide(number);
            }
            None => {
                self.first.insert(wait, number)?;
            }
        }
        Ok(())
    }

    fn wait_for(
        &mut self,
        number: usize,
        group: Group<'a>,
        event: &'a Event,
    ) -> Result<(), AllocError> {
        let wait = Wait {
            group,
            message: message_of(event),
            port: event.port.as_bytes(),
        };
        self.wait(number, wait)
    }

    /// Notes that a transition waits for the events of a trigger.
    fn wait_for_any(
        &mut self,
        number: usize,
        group: Group<'a>,
        trigger: &'a Trigger,
    ) -> Result<(), AllocError> {
        self.wait_for(number, group, &trigger.first)?;
        for event in trigger.others.as_slice() {
            self.wait_for(number, group, event)?;
        }
        Ok(())
    }

    /// Notes what the triggers of a transition wait for.
    fn wait_for_all(
        &mut self,
        number: usize,
        group: Group<'a>,
        triggers: &'a Triggers,
    ) -> Result<(), AllocError> {
        self.wait_for_any(number, group, &triggers.first)?;
        for trigger in triggers.others.as_slice() {
            self.wait_for_any(number, group, trigger)?;
        }
        Ok(())
    }

    fn add(&mut self, number: usize, transition: &'a Transition) -> Result<(), AllocError> {
        let Some(group) = group_of(transition) else {
            return Ok(());
        };
        if let Some(triggers) = triggers_of(transition) {
            return self.wait_for_all(number, group, triggers);
        }
        if has_condition(transition) {
            let wait = Wait {
                group,
                message: b"",
                port: b"",
            };
            return self.wait(number, wait);
        }
        Ok(())
    }

    /// Notes what all transitions of a graph wait for.
    fn add_all(&mut self, items: &'a [GraphItem]) -> Result<(), AllocError> {
        for item in items {
            if let GraphItem::Transition(transition) = item {
                let number = self.decides.len();
                self.decides.push(false)?;
                self.add(number, transition)?;
            }
        }
        Ok(())
    }
}

/// The order of the transitions of a graph.
pub fn orders_of(alloc: Global, items: &[GraphItem]) -> Result<Orders<'_>, AllocError> {
    let mut waiting = Waiting::new(alloc);
    waiting.add_all(items)?;
    Ok(Orders {
        decides: waiting.into_decides(),
        numbered: IndexMap::new(alloc),
        asked: 0,
    })
}

impl<'a> Orders<'a> {
    /// The number of the next transition of the graph among those of its group, from 1, if the order decides there.
    pub fn next(&mut self, transition: &'a Transition) -> Result<Option<usize>, AllocError> {
        let decides = self.decides.as_slice().get(self.asked) == Some(&true);
        self.asked = self.asked.saturating_add(1);
        let Some(group) = group_of(transition) else {
            return Ok(None);
        };
        if !decides {
            return Ok(None);
        }
        let before = self.numbered.get(&group).copied().unwrap_or(0);
        let number = before.saturating_add(1);
        self.numbered.insert(group, number)?;
        Ok(Some(number))
    }
}
