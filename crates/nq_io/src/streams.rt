//! Readers and writers of std as sources and sinks. Those in memory tell their bytes (`in_memory`), and [`copied`] rests on that.

mod copying;
mod std_sink;
mod std_source;

pub use copying::copied;
pub use std_sink::StdSink;
pub use std_source::StdSource;
