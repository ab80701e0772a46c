//! The command line of the program: which words it takes, and which files they name. It depends on `clap`, and on
//! nothing of the receiver. `line_of` returns a line, the help or a refusal, each only if `clap`'s command says so of
//! the words.
#![tactic(auto)]

mod command;
mod fault;
mod line;

pub use fault::LineFault;
pub use line::{Line, line_of};
