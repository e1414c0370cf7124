//! What the sides of a binding must have in common.

ghost use Rattle.std.specs.Prelude.{◌≡◌, true};
ghost use Rattle.std.specs.Option.{option_map_or};
ghost use Rattle.check_bindings.specs.binding_rules.Bindings.{same_protocol, are_opposite, ends_agree, is_one_port, one_counts, where_both, sides_exist, sides_agree, any_places_once};

use crate::binding_rules::ends::{BindingEnd, end_of};
use check_tables::Container;
use room_ast::Binding;

fn same_protocol(left: Option<usize>, right: Option<usize>) -> bool
    ensures { result ≡ same_protocol left right }
{
    match (left, right) {
        (Some(left), Some(right)) => left == right,
        _ => false,
    }
}

fn are_opposite(left: bool, right: bool) -> bool
    ensures { result ≡ are_opposite left right }
{
    left != right
}

fn ends_agree(left: &BindingEnd, right: &BindingEnd) -> bool
    ensures { result ≡ ends_agree left.now right.now }
{
    same_protocol(left.protocol, right.protocol) && are_opposite(left.conjugated, right.conjugated)
}

fn is_one_port(end: &BindingEnd) -> bool
    ensures { result ≡ is_one_port end.now }
{
    !(end.any_places && end.replicated)
}

fn is_one_port_if_any(end: &Option<BindingEnd>) -> bool
    ensures { result ≡ option_map_or is_one_port end.now true }
{
    match end {
        Some(end) => is_one_port(end),
        None => true,
    }
}

fn one_counts(left: &Option<BindingEnd>, right: &Option<BindingEnd>) -> bool
    ensures { result ≡ where_both one_counts left.now right.now }
{
    match (left, right) {
        (Some(left), Some(right)) => !(left.any_places && right.any_places),
        _ => true,
    }
}

fn agree(left: &Option<BindingEnd>, right: &Option<BindingEnd>) -> bool
    ensures { result ≡ where_both ends_agree left.now right.now }
{
    match (left, right) {
        (Some(left), Some(right)) => ends_agree(left, right),
        _ => true,
    }
}

/// Whether both sides name a port that can be bound there.
pub(crate) fn sides_exist(actors: &[Container], class: &Container, binding: &Binding) -> bool
    ensures { result ≡ sides_exist actors.now class.now binding.now }
{
    end_of(actors, class, &binding.left).is_some()
        && end_of(actors, class, &binding.right).is_some()
}

/// Whether the sides have one protocol and opposite directions.
pub(crate) fn sides_agree(actors: &[Container], class: &Container, binding: &Binding) -> bool
    ensures { result ≡ sides_agree actors.now class.now binding.now }
{
    let left = end_of(actors, class, &binding.left);
    let right = end_of(actors, class, &binding.right);
    agree(&left, &right)
}

/// Whether a side with `[*]` is one port, and the other has a number or none.
pub(crate) fn any_places_once(actors: &[Container], class: &Container, binding: &Binding) -> bool
    ensures { result ≡ any_places_once actors.now class.now binding.now }
{
    let left = end_of(actors, class, &binding.left);
    let right = end_of(actors, class, &binding.right);
    is_one_port_if_any(&left) && is_one_port_if_any(&right) && one_counts(&left, &right)
}
