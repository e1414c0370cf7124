//! Numbers and steps by keys.
ghost use Rattle.std.specs.Prelude.{◌≡◌, ◌∷◌, true, List, option_and_then, option_map, position, slice_get, IfOk};
ghost use Rattle.name_tables.specs.name_numbers.Names.{same, is_among};
ghost use Rattle.chart_reader.specs.chart_nodes.Steps.{StepTree};
ghost use Rattle.chart_compile.specs.chart_places.Groups.{IsGrouped, picked};
ghost use Rattle.chart_compile.specs.chart_places.Places.{state_key};
ghost use Rattle.chart_compile.specs.chart_parts.Parts.{HasShortNumber, HasNumber, IsNumber, IsState, from_key};

use chart_reader::{Step, named_key};
use name_tables::NameIndex;
use room_ast::Name;
use room_kinds::Sequence;
use std::alloc::{AllocError, Global};

/// The number of a key that has one.
pub fn number<'c>(numbers: &NameIndex<'c>, key: &[u8]) -> usize
    requires { HasNumber numbers.now key.now }
    ensures { IsNumber numbers.now key.now result }
{
    match numbers.place_of(key) {
        Some(n) => n,
        None => unreachable!(),
    }
}

/// The number of a key that has one of 16 bits.
fn short_number<'c>(numbers: &NameIndex<'c>, key: &[u8]) -> u16
    requires { HasShortNumber numbers.now key.now }
    ensures { IsNumber numbers.now key.now result }
{
    match numbers.place_of(key) {
        Some(n) => n as u16,
        None => unreachable!(),
    }
}

/// The number of the state with a name in a graph.
pub fn state_number<'c>(
    alloc: Global,
    states: &NameIndex<'c>,
    name: &Name,
    owner: &[Name],
) -> Result<u16, AllocError>
    requires { HasShortNumber states.now (state_key (name.now ∷ owner.now)) }
    ensures { IfOk result (λ n. IsState states.now n (name.now ∷ owner.now)) }
{
    let key = named_key(alloc, 1, name, owner)?;
    Ok(short_number(states, key.as_slice()))
}

/// The step with a number.
pub fn step_at<'a, 'b>(steps: &'a [Step<'b>], number: usize) -> Option<&'a Step<'b>>
    ensures { option_map (λ s. s.now) result ≡ slice_get steps.entry.now number }
{
    steps.get(number)
}

fn find_group<'c, 'd>(
    places: &NameIndex<'c>,
    groups: &'d [Sequence<usize>],
    key: &[u8],
) -> Option<&'d Sequence<usize>>
    ensures { option_map (λ g. g.now) result
        ≡ option_and_then (λ i. slice_get groups.entry.now i) (position (same key.now) places.now) }
{
    match places.place_of(key) {
        Some(number) => groups.get(number),
        None => None,
    }
}

/// The numbers of the steps that begin at the place with a key, which is one of these places.
pub fn steps_at<'c, 'd>(
    places: &NameIndex<'c>,
    groups: &'d [Sequence<usize>],
    key: &[u8],
) -> &'d [usize]
    requires grouped { (steps : List StepTree) × IsGrouped places.now groups.now steps }
    requires known { is_among places.now key.now ≡ true }
    ensures { (steps : List StepTree) → IsGrouped places.now groups.entry.now steps
        → picked steps result.now ≡ from_key key.now steps }
{
    let found = find_group(places, groups, key);
    match found {
        Some(group) => group.as_slice(),
        None => unreachable!(),
    }
}
