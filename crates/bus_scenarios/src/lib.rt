// The tests of the bus, its layers and its devices.
#![tactic(auto)]

#[cfg(test)]
mod buses;
