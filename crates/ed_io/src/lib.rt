//! Sources, sinks, writing all of a text: where the input comes from, and where the output goes.
//!
//! Contract: bytes are taken and given in order; a failure only if the device counted one. Devices over memory report
//! their bytes and fail exactly where their list says. Those over std's readers and writers report what these report,
//! until a write fails. Depends on `ed_words`.
#![tactic(auto)]

mod device;
mod pieces;
mod sink;
mod source;
mod standard;
mod stop;
mod sure;
mod writing;

pub use device::{Failed, Sink, Source};
pub use sink::MemorySink;
pub use source::MemorySource;
pub use standard::{StdSink, StdSource, SteadyRead, SteadyWrite};
pub use stop::WriteStop;
pub use sure::{SureSink, SureSource};
pub use writing::write_all;
