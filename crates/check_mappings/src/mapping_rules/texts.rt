//! Whether a path is mapped twice.
//!
//! A mapping's path goes on from the text of the mapping around it, so that deep nesting takes time in
//! proportion to what is written.
ghost use Rattle.std.specs.Prelude.{◌≡◌, ◌<◌, ◌∷◌, ◌++◌, [], decimal, length, IfOk, OnOk, map};
ghost use Rattle.std.specs.List.{flat_map, list_all};
ghost use Rattle.std.specs.Option.{option_map_or};
ghost use Rattle.name_tables.specs.distinct_names.Distinct.{is_distinct};
ghost use Rattle.room_ast.specs.MappingTree.{mapping_view, mappings_of};
ghost use Rattle.room_ast.specs.Trees.{model_view, subsystem_item_view};
ghost use Rattle.check_tables.specs.class_tables.Containers.{tables_of};
ghost use Rattle.check_mappings.specs.mapping_rules.Rules.{Wired as WiredTree, further, path_text, texts_of, all_texts, item_texts, mapped_texts, mappings_are_distinct};
ghost use Rattle.check_mappings.specs.mapping_rules.TextTrees.{text_in, Keeps, Numbers, Adds};
ghost use Rattle.check_mappings.specs.mapping_rules.Wireds.{wired_view};

use crate::mapping_rules::text_tree::TextTree;
use crate::mapping_rules::wired::{Wired, wired_in};
use check_tables::Tables;
use itoa::Buffer;
use room_ast::{Mapping, MappingPath, Model, Segment, SubsystemItem};
use std::alloc::{AllocError, Global};

/// The number of the text that is longer by a number in decimal digits than this one.
fn with_number(texts: &mut TextTree, text: usize, number: u64) -> Result<usize, AllocError>
    requires { text < length texts.old }
    ensures { IfOk result (λ n.
        Numbers texts.old texts.new n (text_in texts.old text ++ decimal number)) }
{
    let mut digits = Buffer::new();
    texts.longer_by(text, digits.format(number).as_bytes())
}

fn with_index(texts: &mut TextTree, text: usize, index: Option<u64>) -> Result<usize, AllocError>
    requires { text < length texts.old }
    ensures { IfOk result (λ n.
        let more = option_map_or (λ i. 58 ∷ decimal i) index [] in
        Numbers texts.old texts.new n (text_in texts.old text ++ more)) }
{
    match index {
        Some(index) => {
            let colon = texts.longer(text, b':')?;
            with_number(texts, colon, index)
        }
        None => Ok(text),
    }
}

/// The number of the text that is longer by a segment that goes on.
fn with_segment(texts: &mut TextTree, text: usize, segment: &Segment) -> Result<usize, AllocError>
    requires { text < length texts.old }
    ensures { IfOk result (λ n.
        Numbers texts.old texts.new n (text_in texts.old text ++ further segment.now)) }
{
    let slash = texts.longer(text, b'/')?;
    let name = texts.longer_by(slash, segment.name.as_bytes())?;
    with_index(texts, name, segment.index)
}

/// The number of the text of a path behind what leads to it.
fn with_path(texts: &mut TextTree, before: usize, path: &MappingPath) -> Result<usize, AllocError>
    requires { before < length texts.old }
    ensures { IfOk result (λ n.
        Numbers texts.old texts.new n (text_in texts.old before ++ path_text path.now)) }
{
    let mut reached = with_segment(texts, before, &path.first)?;
    for segment in path.others.as_slice() {
        reached = with_segment(texts, reached, segment)?;
    }
    Ok(reached)
}

/// Adds the whole paths of the mappings in a mapping's braces, and then its own.
#[cycle(texts)]
fn add_texts(
    texts: &mut TextTree,
    mapped: &mut Vec<usize>,
    before: usize,
    mapping: &Mapping,
) -> Result<(), AllocError>
    requires { before < length texts.old }
    ensures { OnOk result (
        let added = texts_of (text_in texts.old before) (mapping_view mapping.now) in
        Adds texts.old texts.new mapped.old.items mapped.new.items added) }
{
    let path = with_path(texts, before, &mapping.path)?;
    if let Some(nested) = &mapping.nested {
        add_all_texts(texts, mapped, path, nested)?;
    }
    mapped.push(path)?;
    Ok(())
}

#[cycle(texts)]
fn add_all_texts(
    texts: &mut TextTree,
    mapped: &mut Vec<usize>,
    before: usize,
    mappings: &Vec<Mapping>,
) -> Result<(), AllocError>
    requires { before < length texts.old }
    ensures { OnOk result (
        let trees = mappings_of (map mapping_view mappings.now.items) in
        let added = all_texts (text_in texts.old before) trees in
        Adds texts.old texts.new mapped.old.items mapped.new.items added) }
{
    for mapping in mappings {
        add_texts(texts, mapped, before, mapping)?;
    }
    Ok(())
}

fn add_item_texts(
    texts: &mut TextTree,
    mapped: &mut Vec<usize>,
    item: &SubsystemItem,
) -> Result<(), AllocError>
    requires { Keeps ([] ∷ []) texts.old }
    ensures { OnOk result (
        let added = item_texts (subsystem_item_view item.now) in
        Adds texts.old texts.new mapped.old.items mapped.new.items added) }
{
    match item {
        SubsystemItem::Mapping(mapping) => add_texts(texts, mapped, 0, mapping),
        _ => Ok(()),
    }
}

/// Whether the whole paths that a subsystem maps are distinct.
fn subsystem_distinct(alloc: Global, items: &[SubsystemItem]) -> Result<bool, AllocError>
    ensures { IfOk result (λ b.
        b ≡ is_distinct (mapped_texts (map subsystem_item_view items.now))) }
{
    let mut texts = TextTree::new(alloc);
    let mut mapped = Vec::new(alloc);
    for item in items {
        add_item_texts(&mut texts, &mut mapped, item)?;
    }
    texts.are_distinct(alloc, &mapped)
}

fn all_subsystems_distinct(alloc: Global, wired: &[Wired]) -> Result<bool, AllocError>
    ensures { IfOk result (λ b.
        b ≡ list_all (λ (s : WiredTree). is_distinct (mapped_texts s.items)) (map wired_view
        wired.now)) }
{
    for subsystem in wired {
        if !subsystem_distinct(alloc, subsystem.items)? {
            return Ok(false);
        }
    }
    Ok(true)
}

/// Whether no path is mapped twice.
#[tactic(auto, unfolding(crate::specs::mapping_rules::Rules::mappings_are_distinct), using(crate::proofs::mapping_rules::Tops::distinct_top))]
pub fn mappings_are_distinct(
    alloc: Global,
    model: &Model,
    tables: &Tables,
) -> Result<bool, AllocError>
    requires { tables.now ≡ tables_of (model_view model.now) }
    ensures { IfOk result (λ b. b ≡ mappings_are_distinct (model_view model.now)) }
{
    let wired = wired_in(
        alloc,
        model.classes.as_slice(),
        tables.subsystems.as_slice(),
    )?;
    let distinct = all_subsystems_distinct(alloc, &wired)?;
    Ok(distinct)
}
