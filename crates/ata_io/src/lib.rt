//! Bytes in and out: sources and sinks that may fail, in memory and over the standard streams, and
//! the two loops that read all and write all.
#![tactic(auto)]

mod mem_sink;
mod mem_source;
mod reading;
mod sink;
mod source;
mod std_sink;
mod std_source;
mod supply;
mod sure_sink;
mod sure_source;
mod writing;

pub use mem_sink::MemSink;
pub use mem_source::MemSource;
pub use reading::{ReadError, read_all};
pub use sink::Sink;
pub use source::{Failed, Source};
pub use std_sink::StdSink;
pub use std_source::StdSource;
pub use sure_sink::SureSink;
pub use sure_source::SureSource;
pub use writing::{WriteFault, put_all};
