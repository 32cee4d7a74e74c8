//! Reads whole files and writes bytes, and counts failed reads and writes; files and a sink in memory.
#![tactic(auto)]

mod bytewise;
mod file;
mod files;
mod history;
mod loading;
mod memory_files;
mod memory_sink;
mod sink;
#[cfg(test)]
mod tests;
mod writing;

pub use bytewise::{ByteFiles, ByteSink};
pub use file::File;
pub use files::{Failed, Files};
pub use history::{Offset, ReadHistory, WriteHistory};
pub use loading::{LoadFault, load};
pub use memory_files::MemFiles;
pub use memory_sink::MemSink;
pub use sink::Sink;
pub use writing::write_all;
