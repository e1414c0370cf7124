//! From the text of a model to its tree, its wiring and its charts, and to the plant that runs.
ghost use Rattle.std.specs.Prelude.{◌≡◌, ◌≤◌, length, map, option_map, IfOk, IfErr, None};
ghost use Rattle.room_ast.specs.Trees.{model_view};
ghost use Rattle.structure_check.specs.Rules.{first_broken};
ghost use Rattle.structure_check.specs.Classes.{HasClasses};
ghost use Rattle.structure_check.specs.List.{all_rules};
ghost use Rattle.chart_trees.specs.chart_graphs.Views.{chart_view};
ghost use Rattle.chart_reader.specs.model_charts.Charts.{AreValid, HasCharts};
ghost use Rattle.room_run.specs.fitting_plants.Plants.{PlantFits};
ghost use Rattle.room_run.specs.Models.{IsGoodWiring, IsModel, IsSound, IsSoundText, IsSoundTree, SoundCauses};
ghost use Rattle.room_run.specs.Reading.{ChartCauses, HasItsTokens, HasItsTree, IsCheckedFor, IsWrittenOnce, TreeCauses};

use crate::model_fault::ModelFault;
use crate::model_plants::plant_of;
use binding_expand::{ExpandFault, expand};
use chart_reader::{ChartsFault, charts_of};
use chart_trees::Chart;
use controller::Plant;
use room_ast::Model;
use room_inherit::{InheritFault, flatten};
use room_lexer::{LexFault, Token, lex};
use room_parser::{ParseFault, parse};
use room_wiring::Wiring;
use std::alloc::{AllocError, Global};
use structure_check::{CheckFault, Checked, check};

/// The tokens of a text.
fn read_tokens(alloc: Global, text: &[u8]) -> Result<Vec<Token>, ModelFault>
    requires { length text.now ≤ 1048576 }
    ensures ok { IfOk result (λ v. HasItsTokens text.now v.items) }
    ensures err { IfErr result (λ why. SoundCauses text.now why) }
{
    match lex(alloc, text) {
        Ok(tokens) => Ok(tokens),
        Err(LexFault::BadByte(offset)) => Err(ModelFault::Byte(offset)),
        Err(LexFault::OpenString(offset)) => Err(ModelFault::Byte(offset)),
        Err(LexFault::OpenComment(offset)) => Err(ModelFault::Byte(offset)),
        Err(LexFault::NumberTooLarge(offset)) => Err(ModelFault::Byte(offset)),
        Err(LexFault::Memory) => Err(ModelFault::Memory),
    }
}

/// The syntax tree of a text, as it is written.
fn read_written(alloc: Global, text: &[u8]) -> Result<Model, ModelFault>
    requires { length text.now ≤ 1048576 }
    ensures ok { IfOk result (λ tree. IsWrittenOnce text.now (model_view tree)) }
    ensures err { IfErr result (λ why. SoundCauses text.now why) }
{
    let tokens = match read_tokens(alloc, text) {
        Ok(tokens) => tokens,
        Err(why) => return Err(why),
    };
    match parse(alloc, text, &tokens) {
        Ok(tree) => Ok(tree),
        Err(ParseFault::Syntax { line }) => Err(ModelFault::Syntax { line }),
        Err(ParseFault::Memory) => Err(ModelFault::Memory),
    }
}

/// The tree of a text, in which each actor class has all that it has from its bases.
fn read_tree(alloc: Global, text: &[u8]) -> Result<Model, ModelFault>
    requires { length text.now ≤ 1048576 }
    ensures ok { IfOk result (λ tree. HasItsTree text.now (model_view tree)) }
    ensures err { IfErr result (λ why. SoundCauses text.now why) }
{
    let written = match read_written(alloc, text) {
        Ok(written) => written,
        Err(why) => return Err(why),
    };
    match flatten(alloc, written) {
        Ok(tree) => Ok(tree),
        Err(InheritFault::Rule(rule)) => Err(ModelFault::Bases(rule)),
        Err(InheritFault::Memory) => Err(ModelFault::Memory),
    }
}

/// What is kept of a tree that keeps all rules.
fn keep_rules(alloc: Global, tree: &Model) -> Result<Checked<'_>, ModelFault>
    ensures ok { IfOk result (λ c. IsCheckedFor (model_view tree.entry.now) c) }
    ensures err { IfErr result (λ why. TreeCauses (model_view tree.entry.now) why) }
{
    match check(alloc, tree) {
        Ok(checked) => Ok(checked),
        Err(CheckFault::Rule(rule)) => Err(ModelFault::Rule(rule)),
        Err(CheckFault::Memory) => Err(ModelFault::Memory),
    }
}

/// The wiring of a model that keeps all rules.
fn keep_wiring(alloc: Global, checked: &Checked) -> Result<Wiring, ModelFault>
    requires { first_broken all_rules (model_view checked.now.model.now) ≡ None }
    ensures ok { IfOk result (λ w. IsGoodWiring (model_view checked.now.model.now) w) }
    ensures err { IfErr result (λ why. TreeCauses (model_view checked.now.model.now) why) }
{
    match expand(alloc, checked) {
        Ok(wiring) => Ok(wiring),
        Err(ExpandFault::Wiring(fault)) => Err(ModelFault::Wiring(fault)),
        Err(ExpandFault::Memory) => Err(ModelFault::Memory),
    }
}

/// The charts of a model that keeps all rules, where none has a fault.
fn keep_charts(alloc: Global, checked: &Checked) -> Result<Vec<Option<Chart>>, ModelFault>
    requires rules { first_broken all_rules (model_view checked.now.model.now) ≡ None }
    requires classes { HasClasses checked.now }
    ensures ok { IfOk result (λ v.
        HasCharts (model_view checked.now.model.now) (map (option_map chart_view) v.items)) }
    ensures valid { IfOk result (λ v. AreValid (map (option_map chart_view) v.items)) }
    ensures err { IfErr result (λ why. ChartCauses (model_view checked.now.model.now) why) }
{
    match charts_of(alloc, checked) {
        Ok(charts) => Ok(charts),
        Err(ChartsFault::Chart { class, fault }) => Err(ModelFault::Chart { class, fault }),
        Err(ChartsFault::Memory) => Err(ModelFault::Memory),
    }
}

/// The wiring and the charts of a model that keeps all rules, none of which has a fault.
#[derive(Drop)]
pub(crate) struct SoundModel {
    pub(crate) wiring: Wiring,
    pub(crate) charts: Vec<Option<Chart>>,
}

/// The wiring and the charts of a tree, where it keeps all rules and they have no fault.
fn judge_tree(alloc: Global, tree: &Model) -> Result<SoundModel, ModelFault>
    ensures ok { IfOk result (λ s.
        IsSoundTree (model_view tree.now) s.wiring (map (option_map chart_view) s.charts.items)) }
    ensures valid { IfOk result (λ s. AreValid (map (option_map chart_view) s.charts.items)) }
    ensures err { IfErr result (λ why. TreeCauses (model_view tree.now) why) }
{
    let checked = match keep_rules(alloc, tree) {
        Ok(checked) => checked,
        Err(why) => return Err(why),
    };
    let wiring = match keep_wiring(alloc, &checked) {
        Ok(wiring) => wiring,
        Err(why) => return Err(why),
    };
    match keep_charts(alloc, &checked) {
        Ok(charts) => Ok(SoundModel { wiring, charts }),
        Err(why) => Err(why),
    }
}

/// The model of a text, where it keeps all rules and its wiring and charts have no fault.
pub(crate) fn sound_model(alloc: Global, text: &[u8]) -> Result<SoundModel, ModelFault>
    requires { length text.now ≤ 1048576 }
    ensures ok { IfOk result (λ s.
        IsSoundText text.now s.wiring (map (option_map chart_view) s.charts.items)) }
    ensures valid { IfOk result (λ s. AreValid (map (option_map chart_view) s.charts.items)) }
    ensures err { IfErr result (λ why. SoundCauses text.now why) }
{
    let tree = match read_tree(alloc, text) {
        Ok(tree) => tree,
        Err(why) => return Err(why),
    };
    match judge_tree(alloc, &tree) {
        Ok(sound) => Ok(sound),
        Err(why) => Err(why),
    }
}

/// The wiring of the model of a text, where it keeps all rules and its wiring and charts have no fault.
pub fn read_wiring(alloc: Global, text: &[u8]) -> Result<Wiring, ModelFault>
    requires { length text.now ≤ 1048576 }
    ensures ok { IfOk result (λ w. IsSound text.now w) }
    ensures err { IfErr result (λ why. SoundCauses text.now why) }
{
    match sound_model(alloc, text) {
        Ok(sound) => Ok(sound.wiring),
        Err(why) => Err(why),
    }
}

/// The plant of a text, where it is that of a model which keeps all rules and whose wiring and charts have no
/// fault.
pub fn read_plant(alloc: Global, text: &[u8]) -> Result<Plant, ModelFault>
    requires { length text.now ≤ 1048576 }
    ensures ok { IfOk result (λ plant. IsModel text.now plant) }
    ensures fits { IfOk result (λ plant. PlantFits plant) }
    ensures err { IfErr result (λ why. SoundCauses text.now why) }
{
    let sound = match sound_model(alloc, text) {
        Ok(sound) => sound,
        Err(why) => return Err(why),
    };
    match plant_of(alloc, sound.wiring, &sound.charts) {
        Ok(plant) => Ok(plant),
        Err(AllocError) => Err(ModelFault::Memory),
    }
}
