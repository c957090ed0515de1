// Admission on a state's words, as far as it needs no limit: the sums above a place, the figures, the rest of check 2, and checks 6, 7 and 17.
// Words have room for 1 place to the largest N, and every check holds for the room that they have.
#![tactic(auto)]

pub mod checked;
pub mod checks;
pub mod counted;
pub mod figures;
pub mod finishes;
pub mod needs;
pub mod parts;
pub mod sums;
