// A watch: it holds a sheet, accepts frames, and marks what the rule can still come to.
#![tactic(auto)]

mod fold;
pub mod judge;
pub mod outcome;
pub mod record;
mod source;
mod window;
