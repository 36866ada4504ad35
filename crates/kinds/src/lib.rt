// The three plain kinds of question, after the tables of Angluin, Aspnes, Diamadi, Fischer and Peralta (2006).
#![tactic(auto)]

mod leader;
mod numbers;
pub mod presence;
pub mod remainder;
pub mod threshold;

pub use presence::Presence;
pub use remainder::Remainder;
pub use threshold::Threshold;
