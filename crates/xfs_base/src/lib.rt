//! Money, counts and places of notes, moments, and the sources and sinks of the program's bytes.
#![tactic(auto)]

mod counts;
mod currency;
mod faults;
mod lists;
mod memory_stream;
mod moment;
mod money;
mod std_clock;
mod std_stream;
mod stream;

pub use counts::{Counts, Kind, Places};
pub use currency::Currency;
pub use faults::{Failed, Memory, ReadFault, WriteFault};
pub use lists::{Bytes, Numbers};
pub use memory_stream::{MemSink, MemSource};
pub use moment::{ClientId, Clock, FixedClock, Moment, Service};
pub use money::{Milli, NoteKind, UnitTable};
pub use std_clock::StdClock;
pub use std_stream::{StdSink, StdSource};
pub use stream::{Sink, Source, write_all};
