//! Which transition is enabled.
ghost use Rattle.std.specs.Prelude.{◌≡◌, ◌≤◌, IfOk, IfSome, length, map, option_map};
ghost use Rattle.std.specs.List.{list_any};
ghost use Rattle.chart_model.specs.Acting.{acting};
ghost use Rattle.chart_model.specs.Named.{same_event};
ghost use Rattle.chart_model.specs.chart_plan.Handling.{trigger_fits, triggers_fit, first_of, fits, enabled};
ghost use Rattle.chart_run.specs.chart_tables.Tables.{plan, event_view, trigger_view, arrow_view, arrow_views, up_at};
ghost use Rattle.chart_run.specs.chart_tables.Minds.{memory_of, Gives, arrow_fits, taken_view};

use crate::chart_tables::mind::Mind;
use crate::chart_tables::tables::{Arrow, Event, Tables, Trigger};
use action_program::Moment;
use std::alloc::AllocError;

/// A transition that is taken, and how many states of the active path it leaves.
#[derive(Clone, Copy, Drop)]
pub struct Taken<'a> {
    pub leaves: usize,
    pub arrow: &'a Arrow,
}

fn has_event(event: Event, events: &[Event]) -> bool
    ensures { result ≡ list_any (λ e. same_event (event_view event) (event_view e)) events.now }
{
    events.iter().any(|other| event.is(*other))
}

impl Mind {
    /// Whether a trigger has the event, and its guard holds. The guard is tested only where it has it.
    #[tactic(auto, using(crate::proofs::chart_tables::Trying::trigger_tested, crate::proofs::chart_tables::Trying::trigger_missed))]
    fn trigger_fits(
        &mut self,
        trigger: &Trigger,
        event: Event,
        at: &Moment,
    ) -> Result<bool, AllocError>
        ensures { IfOk result (λ b.
            Gives self.old self.new b (trigger_fits (acting at.now) same_event (event_view event)
            (trigger_view trigger.now) (memory_of self.old))) }
    {
        let has = has_event(event, &trigger.events);
        if has {
            let fits = self.holds(&trigger.guard, at)?;
            Ok(fits)
        } else {
            Ok(false)
        }
    }

    /// Whether one of a transition's triggers fits, tried in their order.
    #[tactic(auto, using(crate::proofs::chart_tables::Trying::tried_start, crate::proofs::chart_tables::Trying::tried_miss, crate::proofs::chart_tables::Trying::fitting_hit, crate::proofs::chart_tables::Trying::fitting_none))]
    fn fits(&mut self, arrow: &Arrow, event: Event, at: &Moment) -> Result<bool, AllocError>
        ensures { IfOk result (λ b.
            Gives self.old self.new b
            (arrow_fits at.now (event_view event) (arrow_view arrow.now) (memory_of self.old))) }
    {
        for trigger in &arrow.triggers {
            if self.trigger_fits(trigger, event, at)? {
                return Ok(true);
            }
        }
        Ok(false)
    }

    /// The first of some transitions that fits.
    #[tactic(auto, using(crate::proofs::chart_tables::Trying::tried_start, crate::proofs::chart_tables::Trying::tried_hit, crate::proofs::chart_tables::Trying::tried_miss, crate::proofs::chart_tables::Trying::tried_none))]
    fn first_fit<'a>(
        &mut self,
        arrows: &'a [Arrow],
        event: Event,
        at: &Moment,
    ) -> Result<Option<&'a Arrow>, AllocError>
        ensures { IfOk result (λ r.
            Gives self.old self.new (option_map (λ t. arrow_view t.now) r)
            (first_of (arrow_fits at.now (event_view event)) (arrow_views arrows.entry.now)
            (memory_of self.old))) }
    {
        for arrow in arrows {
            if self.fits(arrow, event, at)? {
                return Ok(Some(arrow));
            }
        }
        Ok(None)
    }

    /// The transition that is tried in a state and fits first: one from the state, then one from a
    /// transition point of the graph that holds it.
    #[tactic(auto, using(crate::proofs::chart_tables::Trying::tried_own, crate::proofs::chart_tables::Trying::tried_shared))]
    fn tried<'a>(
        &mut self,
        tables: &'a Tables,
        state: u16,
        event: Event,
        at: &Moment,
    ) -> Result<Option<&'a Arrow>, AllocError>
        ensures { IfOk result (λ r.
            Gives self.old self.new (option_map (λ t. arrow_view t.now) r)
            (first_of (fits (plan tables.entry.now) (acting at.now) (event_view event))
            ((plan tables.entry.now).tried state) (memory_of self.old))) }
    {
        match self.first_fit(tables.own(state), event, at)? {
            Some(arrow) => Ok(Some(arrow)),
            None => {
                let shared = self.first_fit(tables.shared(state), event, at)?;
                Ok(shared)
            }
        }
    }

    /// The transition that is taken where the active path ends at `leaf`: from the innermost state
    /// outward.
    #[tactic(auto, using(crate::proofs::chart_tables::Trying::enabled_start, crate::proofs::chart_tables::Trying::enabled_hit, crate::proofs::chart_tables::Trying::enabled_miss, crate::proofs::chart_tables::Trying::enabled_none))]
    pub fn enabled<'a>(
        &mut self,
        tables: &'a Tables,
        leaf: u16,
        event: Event,
        at: &Moment,
    ) -> Result<Option<Taken<'a>>, AllocError>
        ensures found { IfOk result (λ r.
            Gives self.old self.new (taken_view r) (enabled (plan tables.entry.now) (acting at.now)
            (event_view event) 0 (up_at tables.entry.now leaf) (memory_of self.old))) }
        ensures within { IfOk result (λ r.
            IfSome r (λ t. t.leaves ≤ length (up_at tables.entry.now leaf))) }
    {
        for (i, state) in tables.up(leaf).iter().enumerate() {
            if let Some(arrow) = self.tried(tables, *state, event, at)? {
                return Ok(Some(Taken {
                    leaves: i + 1,
                    arrow,
                }));
            }
        }
        Ok(None)
    }
}
