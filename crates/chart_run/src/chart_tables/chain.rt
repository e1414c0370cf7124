//! The chain of a transition.
ghost use Rattle.std.specs.Prelude.{◌≡◌, ◌<◌, ◌≤◌, Some, length, take, IfOk, OnOk};
ghost use Rattle.chart_model.specs.Acting.{acting};
ghost use Rattle.chart_model.specs.chart_plan.Handling.{arrive, below, border, chain, enter_all, leave, leave_all, remember, runs_through};
ghost use Rattle.chart_run.specs.chart_tables.Tables.{plan, kind, arrow_view, arrow_views, up_at, IsSound};
ghost use Rattle.chart_run.specs.chart_tables.Minds.{memory_of, next_of, Becomes, Gives, arrow_chosen, arrow_holds};

use crate::chart_tables::mind::Mind;
use crate::chart_tables::tables::{Arrow, Node, Tables};
use action_program::Moment;
use std::alloc::{AllocError, Global};

/// Where a chain goes from a node.
#[derive(Clone, Copy, Drop)]
pub(crate) enum Step<'a> {
    Ends(u16),
    Goes(&'a Arrow),
}

impl Mind {
    /// Remembers that the path which is left ended at `leaf`.
    fn remember(&mut self, tables: &Tables, leaf: u16, state: u16)
        requires { state < length self.old.past.items }
        ensures { Becomes self.old self.new
            (remember (plan tables.now) state (Some leaf) (memory_of self.old)) }
    {
        self.past[usize::from(state)] = Some(leaf);
    }

    /// A composite state through which the path runs with which the chain began remembers it.
    #[tactic(auto, unfolding(chart_model::specs::chart_plan::Handling::remember, chart_model::specs::chart_plan::Handling::runs_through), using(crate::proofs::chart_tables::MindLemmas::inside_known))]
    fn keep(&mut self, tables: &Tables, began: Option<u16>, state: u16)
        requires sound { IsSound tables.now }
        requires size { length self.old.past.items ≡ length tables.now.states.items }
        ensures { Becomes self.old self.new (remember (plan tables.now) state
            (runs_through (plan tables.now) began state) (memory_of self.old)) }
    {
        if let Some(leaf) = began {
            if tables.is_inside(leaf, state) {
                self.remember(tables, leaf, state);
            }
        }
    }

    /// Leaves a state.
    #[tactic(auto, unfolding(chart_model::specs::chart_plan::Handling::leave))]
    fn leave(
        &mut self,
        alloc: Global,
        tables: &Tables,
        began: Option<u16>,
        state: u16,
        at: &Moment,
    ) -> Result<(), AllocError>
        requires sound { IsSound tables.now }
        requires size { length self.old.past.items ≡ length tables.now.states.items }
        ensures { OnOk result (Becomes self.old self.new
            (leave (plan tables.now) (acting at.now) began state (memory_of self.old))) }
    {
        self.keep(tables, began, state);
        self.run_exit(alloc, tables, state, at)
    }

    /// Leaves the innermost states of the path that ends at `leaf`, so many, from inner to outer.
    #[tactic(auto, using(crate::proofs::chart_tables::Walking::leave_start, crate::proofs::chart_tables::Walking::leave_more))]
    pub fn leave_all(
        &mut self,
        alloc: Global,
        tables: &Tables,
        leaf: u16,
        count: usize,
        at: &Moment,
    ) -> Result<(), AllocError>
        requires sound { IsSound tables.now }
        requires within { count ≤ length (up_at tables.now leaf) }
        requires size { length self.old.past.items ≡ length tables.now.states.items }
        ensures { OnOk result (Becomes self.old self.new
            (leave_all (plan tables.now) (acting at.now) (Some leaf)
            (take count (up_at tables.now leaf)) (memory_of self.old))) }
    {
        let up = tables.up(leaf);
        for i in 0..count {
            self.leave(alloc, tables, Some(leaf), up[i], at)?;
        }
        Ok(())
    }

    /// Enters the states of the path that ends at `leaf`, below a state, from outer to inner.
    #[tactic(auto, using(crate::proofs::chart_tables::Walking::enter_start, crate::proofs::chart_tables::Walking::enter_more, crate::proofs::chart_tables::Walking::enter_end), unfolding(chart_model::specs::chart_plan::Handling::below))]
    fn enter_below(
        &mut self,
        alloc: Global,
        tables: &Tables,
        state: u16,
        leaf: u16,
        at: &Moment,
    ) -> Result<(), AllocError>
        ensures { OnOk result (Becomes self.old self.new (enter_all (plan tables.now)
            (acting at.now) (below (plan tables.now) state leaf) (memory_of self.old))) }
    {
        let up = tables.up(leaf);
        let count = up.len().saturating_sub(tables.up(state).len());
        for i in (0..count).rev() {
            self.enter(alloc, tables, up[i], at)?;
        }
        Ok(())
    }

    /// Whether the condition of a branch holds.
    #[tactic(auto, unfolding(crate::specs::chart_tables::Minds::arrow_holds))]
    fn branch_holds(&mut self, branch: &Arrow, at: &Moment) -> Result<bool, AllocError>
        ensures { IfOk result (λ b.
            Gives self.old self.new b
            (arrow_holds at.now (arrow_view branch.now) (memory_of self.old))) }
    {
        let holds = self.holds(&branch.condition, at)?;
        Ok(holds)
    }

    /// The first branch whose condition holds, else the default.
    #[tactic(auto, using(crate::proofs::chart_tables::Trying::tried_start, crate::proofs::chart_tables::Trying::tried_miss, crate::proofs::chart_tables::Walking::chosen_hit, crate::proofs::chart_tables::Walking::chosen_none))]
    fn choose<'a>(
        &mut self,
        branches: &'a [Arrow],
        default: &'a Arrow,
        at: &Moment,
    ) -> Result<&'a Arrow, AllocError>
        ensures { IfOk result (λ r.
            Gives self.old self.new (arrow_view r.now) (arrow_chosen at.now
            (arrow_view default.entry.now) (arrow_views branches.entry.now) (memory_of self.old))) }
    {
        for branch in branches {
            if self.branch_holds(branch, at)? {
                return Ok(branch);
            }
        }
        Ok(default)
    }

    /// The history of a composite state.
    fn history(&self, state: u16) -> Option<u16>
        ensures { result ≡ (memory_of self.now).past state }
    {
        match self.past.get(usize::from(state)) {
            Some(leaf) => *leaf,
            None => None,
        }
    }

    /// Goes on from the border of a composite state: to its history, or else by its initial transition.
    #[tactic(auto, unfolding(chart_model::specs::chart_plan::Handling::border))]
    fn pass_border<'a>(
        &mut self,
        alloc: Global,
        tables: &Tables,
        state: u16,
        initial: &'a Arrow,
        at: &Moment,
    ) -> Result<Step<'a>, AllocError>
        ensures { IfOk result (λ r.
            Gives self.old self.new (next_of r)
            (border (plan tables.now) (acting at.now) state (arrow_view initial.entry.now)
            (memory_of self.old) ((memory_of self.old).past state))) }
    {
        match self.history(state) {
            Some(leaf) => {
                self.enter_below(alloc, tables, state, leaf, at)?;
                Ok(Step::Ends(leaf))
            }
            None => Ok(Step::Goes(initial)),
        }
    }

    /// What follows a segment, by where it leads.
    #[tactic(auto, unfolding(chart_model::specs::chart_plan::Handling::arrive), using(crate::proofs::chart_tables::Chains::enters_border, crate::proofs::chart_tables::Chains::chooses))]
    fn arrive<'a>(
        &mut self,
        alloc: Global,
        tables: &'a Tables,
        began: Option<u16>,
        node: &'a Node,
        at: &Moment,
    ) -> Result<Step<'a>, AllocError>
        requires sound { IsSound tables.now }
        requires size { length self.old.past.items ≡ length tables.now.states.items }
        ensures { IfOk result (λ r.
            Gives self.old self.new (next_of r) (arrive (plan tables.entry.now) (acting at.now)
            began (kind node.entry.now) (memory_of self.old))) }
    {
        match node {
            Node::Simple(state) => {
                self.enter(alloc, tables, *state, at)?;
                Ok(Step::Ends(*state))
            }
            Node::Border(state, initial) => {
                self.enter(alloc, tables, *state, at)?;
                let step = self.pass_border(alloc, tables, *state, initial, at)?;
                Ok(step)
            }
            Node::Choice(branches, default) => {
                let branch = self.choose(branches, default, at)?;
                Ok(Step::Goes(branch))
            }
            Node::Entry(state, next) => {
                self.enter(alloc, tables, *state, at)?;
                Ok(Step::Goes(next))
            }
            Node::Exit(state, next) => {
                self.leave(alloc, tables, began, *state, at)?;
                Ok(Step::Goes(next))
            }
        }
    }

    /// Goes to a node. What isn't in the tables is a state without actions, where a chain ends.
    #[tactic(auto, unfolding(chart_model::specs::chart_plan::Handling::arrive))]
    fn go_to<'a>(
        &mut self,
        alloc: Global,
        tables: &'a Tables,
        began: Option<u16>,
        node: usize,
        at: &Moment,
    ) -> Result<Step<'a>, AllocError>
        requires sound { IsSound tables.now }
        requires size { length self.old.past.items ≡ length tables.now.states.items }
        ensures { IfOk result (λ r.
            Gives self.old self.new (next_of r) (arrive (plan tables.entry.now) (acting at.now)
            began ((plan tables.entry.now).node node) (memory_of self.old))) }
    {
        match tables.nodes.get(node) {
            Some(node) => {
                let step = self.arrive(alloc, tables, began, node, at)?;
                Ok(step)
            }
            None => {
                self.enter(alloc, tables, 0, at)?;
                Ok(Step::Ends(0))
            }
        }
    }

    /// Runs the segment of a transition and what follows, and answers where the chain ends. It began
    /// where the active path ended at `began`; there was none at an actor's start.
    #[tactic(auto, using(crate::proofs::chart_tables::Chains::chain_start, crate::proofs::chart_tables::Chains::chain_ends, crate::proofs::chart_tables::Chains::chain_goes, crate::proofs::chart_tables::Chains::chain_lower))]
    pub fn chain<'a>(
        &mut self,
        alloc: Global,
        tables: &'a Tables,
        began: Option<u16>,
        first: &'a Arrow,
        at: &Moment,
    ) -> Result<u16, AllocError>
        requires sound { IsSound tables.now }
        requires size { length self.old.past.items ≡ length tables.now.states.items }
        ensures { IfOk result (λ s.
            Gives self.old self.new (Some s) (chain (plan tables.entry.now) (acting at.now) began
            (arrow_view first.entry.now) (memory_of self.old))) }
    {
        let mut arrow = first;
        loop {
            self.run(alloc, &arrow.action, at)?;
            match self.go_to(alloc, tables, began, arrow.target, at)? {
                Step::Ends(state) => return Ok(state),
                Step::Goes(next) => arrow = next,
            }
        }
    }
}
