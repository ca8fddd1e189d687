//! Files, input and output of the programs: files that are read whole (`Shelf`), a stream that arrives in pieces (`Feed`) and
//! output in order (`Sink`).
//!
//! Code that is proved takes one of these traits. A program hands it the system's files and streams (`FileShelf`, `InFeed`,
//! `OutSink`). Tests hand it bytes in memory, whose listed calls fail (`MemoryShelf`, `MemoryFeed`, `MemorySink`), or files
//! without end (`EndlessShelf`). Only those in memory specify their contents to clauses.
//!
//! ```text
//! let mut text = Vec::new_in(alloc);
//! if !read_whole(&mut shelf, "market.toml", &mut text)? { /* there is no such file */ }
//! write_whole(&mut sink, &text)?;
//! ```
#![tactic(auto)]

mod begun;
mod count;
mod endless_shelf;
mod feed;
mod file_shelf;
mod in_feed;
mod lists;
mod memory_feed;
mod memory_shelf;
mod memory_sink;
mod out_sink;
mod reading;
mod shelf;
mod sink;
mod writing;

pub use endless_shelf::EndlessShelf;
pub use feed::Feed;
pub use file_shelf::FileShelf;
pub use in_feed::InFeed;
pub use lists::{CallList, FileList, MemoryFile, SizeList};
pub use memory_feed::MemoryFeed;
pub use memory_shelf::MemoryShelf;
pub use memory_sink::MemorySink;
pub use out_sink::OutSink;
pub use reading::{ReadFault, read_whole};
pub use shelf::{Failed, Shelf};
pub use sink::Sink;
pub use writing::write_whole;
