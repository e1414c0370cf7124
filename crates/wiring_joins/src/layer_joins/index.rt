//! The layer connections of a class by reference and protocol.
ghost use Rattle.std.specs.Prelude.{◌≡◌, ℕ, ◌+◌, ◌*◌, ◌^◌, ◌<◌, ◌==◌, None, Some, IfOk, OnOk, if◌then◌else◌};
ghost use Rattle.wiring_places.specs.place_rules.Layers.{layer_protocol, fitting};
ghost use Rattle.wiring_joins.specs.layer_joins.Index.{layer_at, layer_key, first_fitting};

use std::alloc::{AllocError, Global};
use std::collections::HashMap;
use wiring_plan::{ClassPlan, LayerPlan, StructurePlan};

/// For each reference of a class and each protocol the first layer connection that gives service
/// access points of the protocol below the reference their service.
#[derive(Drop)]
pub struct LayerIndex {
    layers: HashMap<u64, LayerPlan>,
}

fn layer_key(reference: u16, protocol: u16) -> u64
    ensures { result ≡ layer_key reference protocol }
{
    u64::from(reference) * 65536 + u64::from(protocol)
}

/// The protocol of the service that a layer connection of a class gives.
fn layer_protocol(plan: &StructurePlan, class: &ClassPlan, layer: LayerPlan) -> Option<u16>
    ensures { result ≡ layer_protocol plan.now class.now layer }
{
    let provider = class
        .references
        .as_slice()
        .get(usize::from(layer.provider))?;
    let provided = plan.classes.as_slice().get(usize::from(provider.class))?;
    let service = provided.ports.as_slice().get(usize::from(layer.service))?;
    service.protocol
}

impl LayerIndex {
    /// No layer connections. It takes no memory.
    #[tactic(auto, unfolding(crate::specs::layer_joins::Index::layer_at))]
    fn new(alloc: Global) -> LayerIndex
        ensures { (key : ℕ) → layer_at result key ≡ None }
    {
        LayerIndex {
            layers: HashMap::new(alloc),
        }
    }

    #[tactic(auto, unfolding(crate::specs::layer_joins::Index::layer_at))]
    fn put(&mut self, key: u64, layer: LayerPlan) -> Result<(), AllocError>
        ensures { OnOk result ((k : ℕ)
            → layer_at self.new k ≡ (if key == k then Some layer else layer_at self.old k)) }
    {
        self.layers.insert(key, layer)?;
        Ok(())
    }

    /// The first layer connection that fits.
    #[tactic(auto, unfolding(crate::specs::layer_joins::Index::layer_at))]
    pub fn fitting(&self, reference: u16, protocol: u16) -> Option<LayerPlan>
        ensures { result ≡ layer_at self.now (layer_key reference protocol) }
    {
        self.layers.get(&layer_key(reference, protocol)).copied()
    }
}

/// The layer connections by reference and protocol, the last put in first.
fn index_of(
    alloc: Global,
    plan: &StructurePlan,
    class: &ClassPlan,
    layers: &[LayerPlan],
) -> Result<LayerIndex, AllocError>
    ensures { IfOk result (λ index.
        (r p : ℕ) → r < 2 ^ 16 → p < 2 ^ 16
        → layer_at index (layer_key r p) ≡ first_fitting plan.now class.now r p layers.now) }
{
    let mut index = LayerIndex::new(alloc);
    let mut left = layers.len();
    while left > 0 {
        left -= 1;
        let layer = layers[left];
        if let Some(protocol) = layer_protocol(plan, class, layer) {
            index.put(layer_key(layer.reference, protocol), layer)?;
        }
    }
    Ok(index)
}

/// The layer connections of a class by reference and protocol. It takes time in proportion to them.
pub fn class_index(
    alloc: Global,
    plan: &StructurePlan,
    class: &ClassPlan,
) -> Result<LayerIndex, AllocError>
    ensures { IfOk result (λ index.
        (r p : ℕ) → r < 2 ^ 16 → p < 2 ^ 16
        → layer_at index (layer_key r p) ≡ fitting plan.now class.now r (Some p)) }
{
    index_of(alloc, plan, class, class.layers.as_slice())
}
