//! A model that isn't refused.
use controller_actors::Plant;
use room_ast::Model;
use room_wiring::Wiring;

/// What was read of the text of a model that isn't refused. All that is told of the model is told of this, so its
/// text isn't read again.
#[derive(Drop)]
pub(crate) struct Accepted {
    /// The tree, in which each actor class has all that it has from its bases.
    pub(crate) tree: Model,
    /// What runs: the wiring, and the charts.
    pub(crate) plant: Plant,
}

impl Accepted {
    pub(crate) fn wiring(&self) -> &Wiring {
        &self.plant.wiring
    }
}
