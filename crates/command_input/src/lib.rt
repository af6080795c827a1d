//! The input of a command: it is read from a shelf of files or made from a number. Nothing is planned
//! and nothing is printed.
//!
//! A query may have several branches. Refusals of an input are looked for in this order: the query
//! file, the script or the certificate, a table that no word names, each table in the order of its
//! first use, each branch bound to its tables, the shape of the branches, and the item whose alias
//! is named. What a plan refuses comes after that, in the crates above.
//!
//! An input can also be read over tables that are there already. Then the query, and the script or
//! the certificate, are bytes, and the order of refusals is the same without the files.
#![tactic(auto)]

mod binding;
mod file;
mod generated;
mod generated_input;
mod input;
mod input_files;
mod query;
mod reading_input;
mod side_input;
mod table_uses;
mod tables;
mod task;
mod text_input;

pub use binding::Input;
pub use generated::MadeTables;
pub use generated_input::generate_input;
pub use input::read_files;
pub use input_files::{InputFiles, SideFile};
pub use reading_input::{read_files_of, read_input};
pub use side_input::proof_refusal;
pub use task::Task;
pub use text_input::{TextInput, read_texts, read_texts_of};
