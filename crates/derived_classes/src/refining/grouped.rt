//! The refinements that a graph sees, in groups by the first of their names, so that those of a state or
//! of a transition are found without a search.
ghost use Rattle.std.specs.Prelude.{◌≡◌, ◌++◌, ◌∷◌, [], IfOk, IfSome, IfNone, OnOk, map, option_map};
ghost use Rattle.std.specs.Option.{option_to_list};
ghost use Rattle.name_tables.specs.name_numbers.Names.{names_of};
ghost use Rattle.derived_classes.specs.Grouping.{first_names, gather, gather_all, gathered, gathered_at, no_group};
ghost use Rattle.derived_classes.specs.Refining.{added_actions, below, code_of};
ghost use Rattle.derived_classes.specs.Views.{IsGrouped, actions_if, code_views, group_view, group_views, refining_view, refining_views};

use crate::refining::paths::{Pending, behind};
use name_tables::NameIndex;
use room_ast::{Change, Code, Name};
use std::alloc::{AllocError, Global};

/// The refinements of one group, one name further.
#[derive(Drop)]
pub(super) struct Group<'a> {
    inside: Vec<Pending<'a>>,
    /// What those of them add that are of a transition of the group's name.
    pub(super) actions: Vec<&'a Code>,
}

/// Refinements in groups by the first of their names.
#[derive(Drop)]
pub(super) struct Grouped<'p, 'a> {
    pub(super) pending: &'p [Pending<'a>],
    names: NameIndex<'a>,
    groups: Vec<Group<'a>>,
}

fn push_if<'a>(names: &mut Vec<&'a [u8]>, name: Option<&'a Name>) -> Result<(), AllocError>
    ensures { OnOk result (names_of names.new.items
        ≡ names_of names.old.items ++ option_to_list (option_map (λ n. n.now) name.entry)) }
{
    if let Some(name) = name {
        names.push(name.as_bytes())?;
    }
    Ok(())
}

/// The first names of refinements.
fn first_names<'a>(alloc: Global, pending: &[Pending<'a>]) -> Result<Vec<&'a [u8]>, AllocError>
    ensures { IfOk result (λ names.
        names_of names.items ≡ first_names (refining_views pending.now)) }
{
    let mut names = Vec::new(alloc);
    for one in pending {
        push_if(&mut names, one.next)?;
    }
    Ok(names)
}

/// A group with nothing in it for each name.
fn no_groups<'a>(alloc: Global, names: &[&'a [u8]]) -> Result<Vec<Group<'a>>, AllocError>
    ensures { IfOk result (λ groups. group_views groups.items ≡ map (λ n. no_group) names.now) }
{
    let mut groups = Vec::new(alloc);
    for _name in names {
        groups.push(Group {
            inside: Vec::new(alloc),
            actions: Vec::new(alloc),
        })?;
    }
    Ok(groups)
}

/// What a refinement without names left adds to a transition.
fn code_of<'a>(one: &Pending<'a>) -> Option<&'a Code>
    ensures { option_map (λ c. c.now) result
        ≡ code_of (refining_view one.now).path (refining_view one.now).change }
{
    match (one.next, one.change) {
        (None, Change::Transition(code)) => Some(code),
        (None, Change::State(_)) => None,
        (Some(_), _) => None,
    }
}

fn push_code<'a>(codes: &mut Vec<&'a Code>, code: Option<&'a Code>) -> Result<(), AllocError>
    ensures { OnOk result (code_views codes.new.items
        ≡ code_views codes.old.items ++ option_to_list (option_map (λ c. c.now) code.entry)) }
{
    if let Some(code) = code {
        codes.push(code)?;
    }
    Ok(())
}

/// Adds a refinement to a group.
fn gather_in<'a>(group: &mut Group<'a>, one: Pending<'a>) -> Result<(), AllocError>
    ensures { OnOk result (group_view group.new
        ≡ gathered (group_view group.old) (refining_view one.entry)) }
{
    push_code(&mut group.actions, code_of(&one))?;
    group.inside.push(one)?;
    Ok(())
}

#[tactic(auto, using(crate::proofs::Groups::gathered_set, crate::proofs::Groups::gathered_past))]
fn gather_at<'a>(
    groups: &mut Vec<Group<'a>>,
    place: usize,
    one: Pending<'a>,
) -> Result<(), AllocError>
    ensures { OnOk result (group_views groups.new.items
        ≡ gathered_at (group_views groups.old.items) place (refining_view one.entry)) }
{
    if place < groups.len() {
        gather_in(&mut groups[place], one)?;
    }
    Ok(())
}

/// Adds a refinement to the group of its first name.
fn gather<'a>(
    names: &NameIndex<'a>,
    one: &Pending<'a>,
    groups: &mut Vec<Group<'a>>,
) -> Result<(), AllocError>
    ensures { OnOk result (group_views groups.new.items
        ≡ gather names.now (refining_view one.now).path (refining_view one.now).change
        (group_views groups.old.items)) }
{
    let Some(name) = one.next else {
        return Ok(());
    };
    match names.place_of(name.as_bytes()) {
        Some(place) => gather_at(groups, place, behind(one)),
        None => Ok(()),
    }
}

fn gather_all<'a>(
    names: &NameIndex<'a>,
    pending: &[Pending<'a>],
    groups: Vec<Group<'a>>,
) -> Result<Vec<Group<'a>>, AllocError>
    ensures { IfOk result (λ v.
        group_views v.items
        ≡ gather_all names.now (refining_views pending.now) (group_views groups.entry.items)) }
{
    let mut groups = groups;
    for one in pending {
        gather(names, one, &mut groups)?;
    }
    Ok(groups)
}

impl<'p, 'a> Grouped<'p, 'a> {
    /// The groups of refinements. It takes time in proportion to their number.
    pub(super) fn of(
        alloc: Global,
        pending: &'p [Pending<'a>],
    ) -> Result<Grouped<'p, 'a>, AllocError>
        ensures pending { IfOk result (λ g. g.pending.now ≡ pending.entry.now) }
        ensures grouped { IfOk result (λ g. IsGrouped g) }
    {
        let names = first_names(alloc, pending)?;
        let groups = no_groups(alloc, names.as_slice())?;
        let names = NameIndex::of(alloc, names)?;
        let groups = gather_all(&names, pending, groups)?;
        Ok(Grouped {
            pending,
            names,
            groups,
        })
    }

    /// The refinements that lead to the state of this name or into it, as that sees them, and the name as
    /// they have it; none where none does.
    pub(super) fn inside(&self, name: &[u8]) -> Option<(&'a [u8], &[Pending<'a>])>
        requires { IsGrouped self.now }
        ensures same { IfSome result (λ found. found.0.now ≡ name.now) }
        ensures inside { IfSome result (λ found.
            refining_views found.1.now ≡ below name.now (refining_views self.now.pending.now)) }
        ensures other { IfNone result (below name.now (refining_views self.now.pending.now) ≡ []) }
    {
        let Some(place) = self.names.place_of(name) else {
            return None;
        };
        let Some(group) = self.groups.get(place) else {
            return None;
        };
        let Some(first) = self.names.names().get(place) else {
            return None;
        };
        Some((*first, group.inside.as_slice()))
    }

    /// The group that has what is added to the action of a transition of this name, if anything is.
    pub(super) fn added_actions(&self, name: &[u8]) -> Option<&Group<'a>>
        requires { IsGrouped self.now }
        ensures { actions_if result
            ≡ added_actions name.now (refining_views self.now.pending.now) }
    {
        let Some(place) = self.names.place_of(name) else {
            return None;
        };
        self.groups.get(place)
    }
}
