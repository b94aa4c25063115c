// One stream's record: its counts, the fields that it holds, and when it is good. No public call stands here; the crates above use `inner`.
#![tactic(auto)]

pub mod inner;
