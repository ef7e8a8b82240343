//! What the program takes of its working folder before it starts, the key and the seed, what the bench is set up with, the
//! origins of pages that are let in and the file of the journal, and the bench of a server over it.
#![tactic(auto)]

mod bench;
mod bench_file;
mod bench_line;
mod either_disk;
mod fault;
mod folder;
mod journal;
mod number_line;

pub use bench::server_bench;
pub use bench_file::setup_in;
pub use bench_line::BenchFault;
pub use either_disk::EitherDisk;
pub use fault::{FileFault, StartFault};
pub use folder::{BENCH_FILE, Folder, JOURNAL_FILE, KEY_FILE, ORIGINS_FILE, SEED_FILE};
