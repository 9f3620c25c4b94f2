//! Escapes for text in HTML, so that none of it is read as markup.
#![tactic(auto)]

mod laws;
mod spelling;

pub use laws::escapes_read_back;
pub use spelling::escape;
