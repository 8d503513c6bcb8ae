//! The memory of a machine: bytes with permissions, made from segments, in pages that copies share until one is
//! written. Contracts see the finite map `Memory` from addresses to bytes and permissions, not how it is kept.
#![tactic(auto)]

mod apart;
mod code;
mod files;
mod held;
mod image;
mod overlap;
mod page;
mod pages;
mod paging;
mod places;
mod spec;
mod within;

pub use code::Code;
pub use image::Image;
pub use overlap::{Sharing, first_sharing};
pub use spec::{ImageError, SegmentSpec};
