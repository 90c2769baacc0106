// A world with the names that it gives.
use kern_model::World;
use lab_text::Policy;

/// A world, and the names that it gives to levels, categories and grades.
#[derive(Debug, Drop)]
pub struct WorldText {
    pub policy: Policy,
    pub world: World,
}
