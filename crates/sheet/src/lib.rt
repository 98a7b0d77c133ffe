// A rule as a sheet of rows: the record, how bytes are read into it, and what is asked of it.
#![tactic(auto)]

mod body;
pub mod check;
mod draft;
pub mod fault;
mod placed;
pub mod record;
pub mod row;
