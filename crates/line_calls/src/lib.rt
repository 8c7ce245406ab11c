// The calls of a script that the line answers: frames, pieces, the station and its record, segments; and the common parts of answers.
#![tactic(auto)]

pub mod answers;
pub mod frames;
pub mod lines;
pub mod pieces;
pub mod segments;
pub mod session;
pub mod stations;
