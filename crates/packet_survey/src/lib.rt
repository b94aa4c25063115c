// The Standard Data Packet of 49A: what its class says, and what its payload holds. The crates above read and write packets by it; there is no call here.
#![tactic(auto)]

pub mod inner;
