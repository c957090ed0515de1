// The calls by value. Those on a state lend its words to the call on words, where what a call does stands once; a refused call hands back
// the state that was handed in. Those on a table lay it into words, or read it into them, and an old state is laid into them too. Eight of
// them stand beside the call on words: a state is handed in by value (clause 1.4), or lent by firmware (section 15).
#![tactic(auto)]

pub mod admit;
pub mod carry;
pub mod chain;
pub mod figures;
pub mod lead;
pub mod look;
pub mod post;
pub mod read;
pub mod run;
pub mod slot;
pub mod write;
