//! Where a program's input comes from, where its output goes, and when a lane goes on.
//!
//! `Files`, `Sink` and `Gate` are traits, so that a program is proved once for every source and
//! sink, and is tested over those in memory, where chosen calls fail. The rule that all of them
//! keep: a fault is answered only where the count of faults of the object that was handed in rose
//! in this call, and after a refusal nothing was appended and nothing more was taken.
//!
//! Nothing is promised of when a gate lets a lane go on, nor of what the host does with bytes that
//! it took.
//!
//! ```text
//! let mut content = Vec::new(rt.alloc());
//! HostFiles::new(&rt).read("words.txt", &mut content, 1_000_000)?;
//! if !content.is_empty() {
//!     let taken = HostSink::new(&rt).write(&content)?;
//! }
//! ```
#![tactic(auto)]

mod contents;
mod files;
mod gate;
mod honest_files;
mod honest_sink;
mod host_files;
mod host_sink;
mod meet;
mod mem_files;
mod mem_sink;
mod sink;
mod source;
mod stream;

pub use files::{FileFault, Files};
pub use gate::{Gate, Open};
pub use honest_files::HonestFiles;
pub use honest_sink::HonestSink;
pub use host_files::HostFiles;
pub use host_sink::HostSink;
pub use meet::Meet;
pub use mem_files::MemFiles;
pub use mem_sink::MemSink;
pub use sink::{Sink, SinkFault};
