//! A defined child of a space.
use mx_c3::space::SpaceId;
use mx_value::label::Label;

/// A defined child of a space, with the last name of its path.
#[derive(Drop)]
pub struct Child {
    pub name: Label,
    pub space: SpaceId,
}
