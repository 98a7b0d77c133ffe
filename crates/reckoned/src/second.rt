// The second reckoning: what bytes, frames and calls come to, by the published pages alone and by other methods than the product's.
pub mod ends;
pub mod ledger;
pub mod meaning;
pub mod reading;
pub mod reason;
pub mod scale;
pub mod set;
pub mod sides;
pub mod task;
