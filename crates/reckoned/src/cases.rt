// The cases, each judged by the product and by the second reckoning.
pub mod carried;
pub mod meanings;
pub mod played;
pub mod sheets;
pub mod stage;
pub mod texts;
