// Compiled questions: one to six plain questions in one number, and a table of the answers.
#![tactic(auto)]

mod joined;
pub mod lane;
pub mod question_of_lanes;

pub use lane::Lane;
pub use question_of_lanes::{Compiled, MAX_LANES};
