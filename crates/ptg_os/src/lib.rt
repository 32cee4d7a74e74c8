//! The arguments, files and standard output of a process.
#![tactic(auto)]

#[cfg(test)]
mod argument_tests;
mod arguments;
mod files;
mod sink;
#[cfg(test)]
mod tests;

pub use arguments::words;
pub use files::OsFiles;
pub use sink::OsSink;
