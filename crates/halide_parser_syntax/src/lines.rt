//! What a line says. `V` is what was made of its expressions.

use sqlite_items::Items;

/// A name with one or two extents, of an input or the output.
#[derive(Drop)]
pub struct NamedExtents {
    pub name: Items<u8>,
    pub width: u32,
    pub height: Option<u32>,
}

/// A reduction variable with its minimum and its extent.
#[derive(Drop)]
pub struct ReductionBounds {
    pub name: Items<u8>,
    /// Whether a minus is before the minimum.
    pub is_negative: bool,
    pub minimum: u32,
    pub extent: u32,
}

/// The pure definition of a Func.
#[derive(Drop)]
pub struct Definition<V> {
    pub name: Items<u8>,
    pub first_argument: Items<u8>,
    pub second_argument: Option<Items<u8>>,
    pub right: V,
}

/// An update of a Func.
#[derive(Drop)]
pub struct Change<V> {
    pub name: Items<u8>,
    pub left_x: V,
    pub left_y: Option<V>,
    pub right: V,
    pub first: ReductionBounds,
    pub second: Option<ReductionBounds>,
}

/// A line.
#[derive(Drop)]
pub enum AlgorithmLine<V> {
    Blank,
    Input {
        extents: NamedExtents,
        /// Whether each pixel is a byte.
        is_bytes: bool,
    },
    Func(Definition<V>),
    Update(Change<V>),
    Output(NamedExtents),
}
