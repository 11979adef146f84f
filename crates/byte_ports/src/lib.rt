//! Bytes in and out: sources that are read, sinks that are written, and stores that keep images under names. What a program does is
//! written over the traits `Source`, `Sink` and `Images`, so its contract can say which bytes came and went, and that a fault was answered
//! only where one happened.
//!
//! A contract sees two things of such an object. The first is what it tells: the bytes left, the bytes held, or the map from names to
//! images; an object over the outside world tells nothing, and then nothing is said. The second is the count of its faults, which never
//! falls: `Failed` is answered only where it rose in that very call. Code over a trait cannot raise it, so it cannot give up in this way.
//! Three kinds implement the traits: `SureSource` and its kin in memory never fail; `MemorySource` and its kin in memory fail at the calls
//! whose numbers stand on a list, so that tests reach each refusal; `ReaderSource` and `WriterSink` stand over any reader and any writer of
//! the library, and tell what these tell. `StdinSource` and `StdoutSink` are these over the streams of a runtime, which tell nothing, and
//! `FileImages` is over its files.
//!
//! Proved here: what each call of the traits gives and leaves, in memory exactly, and over a reader or a writer wherever that tells its
//! bytes; `read_all` and `write_all` over any object; what a load makes of an opened file (`read_front`) and what a save puts into a made
//! one (`write_whole`), over any reader and writer; and that each error is counted. Only tested: that `FileImages` opens the file of the
//! name. Which bytes the system gives or takes no contract can say.
#![tactic(auto)]

mod fail_list;
mod file_images;
mod image_map;
mod images;
mod laws;
mod memory_images;
mod memory_sink;
mod memory_source;
mod reader_source;
mod refusal;
mod rest;
mod sink;
mod source;
mod sure_images;
mod sure_sink;
mod sure_source;
#[cfg(test)]
mod tests;
mod writer_sink;

pub use file_images::{FileImages, read_front, write_whole};
pub use images::Images;
pub use laws::{
    appends_join, empty_list_never_fails, listed_calls_fail, setting_a_name, takes_join,
    zero_never_rises,
};
pub use memory_images::MemoryImages;
pub use memory_sink::MemorySink;
pub use memory_source::MemorySource;
pub use reader_source::{ReaderSource, StdinSource};
pub use refusal::{Failed, ReadRefusal, StoreRefusal};
pub use sink::{Sink, write_all};
pub use source::{Source, read_all};
pub use sure_images::SureImages;
pub use sure_sink::SureSink;
pub use sure_source::SureSource;
pub use writer_sink::{StdoutSink, WriterSink};
