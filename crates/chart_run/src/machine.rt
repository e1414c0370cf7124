//! A machine: one actor's state of its chart.
ghost use Rattle.std.specs.Prelude.{◌≡◌, [], true, None, length, replicate, IfOk, IsErr};
ghost use Rattle.chart_model.specs.Acting.{acting, handles_by};
ghost use Rattle.chart_model.specs.chart_plan.Handling.{handling};
ghost use Rattle.chart_run.specs.chart_tables.Tables.{plan, IsSound, event_view};
ghost use Rattle.chart_run.specs.chart_tables.Minds.{memory_of};
ghost use Rattle.chart_run.specs.Machines.{Fits, Starts, Acts, acted_of, event_of, handled_at, moment_of, result_view, standing_of};
ghost use Rattle.chart_run.specs.ByName.{StartsAsChart, ActsAsChart};

use crate::chart_tables::{Event, Mind, Row, Tables};
use crate::outcome::{Outcome, result_of};
use action_program::{Effects, Moment, Vars};
use room_kinds::{Incarnation, Msg, Payload};
use std::alloc::{AllocError, Global};
use std::mem;

/// One actor's state of its chart: the state at which its active path ends, the history of its
/// composite states and its attributes.
#[derive(Drop)]
pub struct Machine {
    me: Incarnation,
    leaf: u16,
    mind: Mind,
    failed: bool,
}

/// What came with a message.
fn moment_of(alloc: Global, me: Incarnation, m: &Msg) -> Result<Moment, AllocError>
    ensures { IfOk result (λ at. at ≡ moment_of me m.now) }
{
    Ok(Moment {
        payload: m.payload.copy(alloc)?,
        place: m.target.place,
        me,
        has_message: true,
    })
}

/// No history for each of some states.
fn no_past(alloc: Global, states: &[Row]) -> Result<Vec<Option<u16>>, AllocError>
    ensures { IfOk result (λ past. past.items ≡ replicate (length states.now) None) }
{
    let mut past = Vec::with_capacity(alloc, states.len())?;
    for _i in 0..states.len() {
        past.push(None)?;
    }
    Ok(past)
}

impl Machine {
    /// Takes the transition that an event enables, if it enables one, and says whether it does.
    #[tactic(auto, using(crate::proofs::Taking::not_enabled, crate::proofs::Taking::taken_up))]
    fn take(
        &mut self,
        alloc: Global,
        tables: &Tables,
        event: Event,
        at: &Moment,
    ) -> Result<bool, AllocError>
        requires sound { IsSound tables.now }
        requires size { length self.old.mind.past.items ≡ length tables.now.states.items }
        ensures handling { IfOk result (λ b.
            handled_at b self.new.leaf self.new.mind ≡ handling (plan tables.now) (acting at.now)
            self.old.leaf (event_view event) (memory_of self.old.mind)) }
        ensures size { IfOk result (λ b.
            length self.new.mind.past.items ≡ length tables.now.states.items) }
        ensures me { self.new.me ≡ self.old.me }
        ensures failed { self.new.failed ≡ self.old.failed }
    {
        let leaf = self.leaf;
        let Some(taken) = self.mind.enabled(tables, leaf, event, at)? else {
            return Ok(false);
        };
        self.mind.leave_all(alloc, tables, leaf, taken.leaves, at)?;
        let end = self.mind.chain(alloc, tables, Some(leaf), taken.arrow, at)?;
        self.leaf = end;
        Ok(true)
    }

    /// Hands out what actions told and asked for.
    fn take_effects(&mut self, alloc: Global) -> Effects
        ensures out { result ≡ self.old.mind.effects }
        ensures notes { self.new.mind.effects.notes ≡ [] }
        ensures commands { self.new.mind.effects.commands ≡ [] }
        ensures past { self.new.mind.past ≡ self.old.mind.past }
        ensures vars { self.new.mind.vars ≡ self.old.mind.vars }
        ensures leaf { self.new.leaf ≡ self.old.leaf }
        ensures me { self.new.me ≡ self.old.me }
        ensures failed { self.new.failed ≡ self.old.failed }
    {
        mem::replace(&mut self.mind.effects, Effects::new(alloc))
    }

    /// Handles a message.
    #[tactic(auto, using(crate::proofs::Taking::acted_up))]
    fn act(&mut self, alloc: Global, tables: &Tables, m: &Msg) -> Result<Outcome, AllocError>
        requires sound { IsSound tables.now }
        requires size { length self.old.mind.past.items ≡ length tables.now.states.items }
        requires notes { self.old.mind.effects.notes ≡ [] }
        requires commands { self.old.mind.effects.commands ≡ [] }
        ensures acts { IfOk result (λ o.
            acted_of (result_view o.result) self.new o.effects
            ≡ handles_by (plan tables.now) (moment_of self.old.me m.now) (event_of m.now)
            (standing_of self.old)) }
        ensures size { IfOk result (λ o.
            length self.new.mind.past.items ≡ length tables.now.states.items) }
        ensures notes { IfOk result (λ o. self.new.mind.effects.notes ≡ []) }
        ensures commands { IfOk result (λ o. self.new.mind.effects.commands ≡ []) }
        ensures me { self.new.me ≡ self.old.me }
        ensures failed { self.new.failed ≡ self.old.failed }
    {
        let at = moment_of(alloc, self.me, m)?;
        let event = Event {
            port: m.target.port,
            signal: m.signal,
        };
        let enabled = self.take(alloc, tables, event, &at)?;
        let result = result_of(&at, enabled, self.mind.effects.commands.as_slice());
        let effects = self.take_effects(alloc);
        Ok(Outcome { result, effects })
    }

    /// A machine that has taken the initial chain of the tables, and what that told and asked for.
    pub fn start(
        alloc: Global,
        tables: &Tables,
        me: Incarnation,
    ) -> Result<(Machine, Effects), AllocError>
        requires sound { IsSound tables.now }
        ensures starts { IfOk result (λ x. Starts tables.now me x.0 x.1) }
        ensures as_chart { IfOk result (λ x. StartsAsChart tables.now me x.0 x.1) }
        ensures fits { IfOk result (λ x. Fits tables.now x.0) }
    {
        let at = Moment {
            payload: Payload::empty(alloc),
            place: 0,
            me,
            has_message: false,
        };
        let past = no_past(alloc, &tables.states)?;
        let vars = Vars::new(alloc, &tables.values)?;
        let mut mind = Mind {
            past,
            vars,
            effects: Effects::new(alloc),
        };
        let leaf = mind.chain(alloc, tables, None, &tables.initial, &at)?;
        let mut machine = Machine {
            me,
            leaf,
            mind,
            failed: false,
        };
        let effects = machine.take_effects(alloc);
        Ok((machine, effects))
    }

    /// Handles a message as a whole. The tables are those of the start. After a refusal for want of
    /// memory the machine gives no other answer.
    pub fn handle(&mut self, alloc: Global, tables: &Tables, m: &Msg) -> Result<Outcome, AllocError>
        requires sound { IsSound tables.now }
        requires fits { Fits tables.now self.old }
        ensures acts { IfOk result (λ outcome. Acts tables.now self.old self.new m.now outcome) }
        ensures as_chart { IfOk result (λ outcome.
            ActsAsChart tables.now self.old self.new m.now outcome) }
        ensures fits { Fits tables.now self.new }
        ensures failed { self.old.failed ≡ true → IsErr result }
        ensures err { IsErr result → self.new.failed ≡ true }
    {
        if self.failed {
            return Err(AllocError);
        }
        self.failed = true;
        let outcome = self.act(alloc, tables, m)?;
        self.failed = false;
        Ok(outcome)
    }

    /// The number of the state at which the active path ends.
    pub fn state(&self) -> u16
        ensures { result ≡ self.now.leaf }
    {
        self.leaf
    }

    /// The numbers of the attributes, in order of declaration. It takes no memory.
    pub fn attributes(&self) -> &[i64]
        ensures { result.now ≡ self.now.mind.vars }
    {
        self.mind.vars.numbers()
    }
}
