//! What a link does with its frames, by its past: which pass, which are forwarded, which fragments are joined, what
//! becomes of each frame, what each port is given, and what a lawful history is. It is definitions and their laws: no
//! code runs.
#![tactic(auto)]

pub mod laws;
