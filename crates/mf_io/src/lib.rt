//! What the program reads from, writes to and calls: sources, sinks and gates. There are sources and sinks over memory,
//! with faults of the caller's choice or with none, and over a reader and a writer, as the process's own streams.
#![tactic(auto)]

mod calls;
mod gate;
mod memory;
mod sink;
mod source;
mod standard;
mod sure;

pub use calls::Calls;
pub use gate::{Gate, OpenGate};
pub use memory::{MemSink, MemSource};
pub use sink::Sink;
pub use source::{Failed, Source};
pub use standard::{KnownSink, StdSink, StdSource};
pub use sure::{SureSink, SureSource};
