// What a script gives and asks of points: setups, readings, held events.
#![tactic(auto)]

pub mod held;
pub mod outputs;
pub mod readings;
pub mod setup;
