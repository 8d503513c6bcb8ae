//! Files and streams, by two traits that say what a call did and when it may fail. Each has an implementation for the
//! machine, one in memory that fails as planned, and one in memory that never fails.
#![tactic(auto)]

mod dir_shelf;
mod folder;
mod memory_shelf;
mod memory_sink;
mod never;
mod new_file;
mod shelf;
mod sink;
mod std_sink;
mod stored_files;
mod streams;

pub use dir_shelf::DirShelf;
pub use folder::{Folder, replace};
pub use memory_shelf::MemoryShelf;
pub use memory_sink::MemorySink;
pub use never::{NeverShelf, NeverSink};
pub use shelf::{LoadError, Shelf, StoreError};
pub use sink::{Sink, WriteError, put_all};
pub use std_sink::{StdSink, WriterSink};
