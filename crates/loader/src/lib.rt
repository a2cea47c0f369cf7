//! Images: what a machine starts from, as values and as bytes.
//!
//! `specs/Image.antt` has what an image holds and the rules that it keeps, and `specs/Spelling.antt`
//! has its bytes in the two formats: [`read_image`] reads exactly what is spelled in one of them,
//! [`store`] and [`store_parts`] (`specs/Parts.antt`) spell an image in the second, and
//! [`one_spelling`] is the law that each image has one spelling in each format and no spelling begins
//! another.
//! [`load`] and [`Image::machine`] make the machine of an image at its start (`specs/Loading.antt`).
#![tactic(auto)]

pub mod faults;
pub mod formats;
mod images;
mod loading;
pub mod outputs;
pub mod parts;
mod readings;
mod spellings;

pub use crate::faults::LoadFault;
pub use crate::formats::Format;
pub use crate::images::Image;
pub use crate::loading::load;
pub use crate::outputs::{MOST_PIXELS, Output};
pub use crate::parts::ImageParts;
pub use crate::readings::read_image;
pub use crate::spellings::{one_spelling, store, store_parts};
