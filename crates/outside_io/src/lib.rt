//! The outside, as far as the editor meets it: a `Source` of bytes, a `Sink` for bytes, and a `Wire` to a
//! peer.
//!
//! A source is seen as the bytes that it has left, a sink as the bytes that it holds, a wire as its two ends
//! with the bytes sent, received and to come at each. Each of the three counts its faults: a call fails
//! only where that count rose, and one that goes well leaves it. What stands in memory tells its bytes; the process's real
//! input, output and sockets do not. `read_whole` and `write_whole` work over any of them.
#![tactic(auto)]

mod calls;
mod failed;
mod link;
mod mem_end;
mod no_wire;
mod reading;
mod sink;
mod sink_mem;
mod source;
mod source_mem;
mod stdin_source;
mod stdout_sink;
mod tcp_wire;
mod wire;
mod wire_mem;
mod writing;

pub use failed::Failed;
pub use link::{Asked, Role};
pub use no_wire::NoWire;
pub use reading::{MAX_INPUT, ReadBad, Taken, read_whole};
pub use sink::Sink;
pub use sink_mem::SinkMem;
pub use source::Source;
pub use source_mem::SourceMem;
pub use stdin_source::StdinSource;
pub use stdout_sink::StdoutSink;
pub use tcp_wire::TcpWire;
pub use wire::Wire;
pub use wire_mem::WireMem;
pub use writing::write_whole;
