// The lines that the programs print (document 01, "Examples"), each put into a buffer behind the ones before it.
#![tactic(auto)]

mod lines;
mod pieces;

pub use lines::{put_labelled, put_record, put_run};
pub use pieces::put_word;
