// What the programs share: reading nets and plans from files, telling what is wrong, printing links and cuts.
#![tactic(auto)]

mod files;
mod print;
mod program;
mod stopped;

pub use files::replace_file;
pub use print::{write_cut, write_line};
pub use program::Program;
pub use stopped::{OutOfMemory, Stopped, status};
