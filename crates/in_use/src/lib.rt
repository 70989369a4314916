// A bench in use: a rack and its slate, with the slip of the visit that is open on them; and any call on it as one call.
#![tactic(auto)]

mod bench_in_use;
mod call;
mod performing;
mod visits;

pub use bench_in_use::{BenchInUse, Sizes};
pub use call::{Call, CallOn, Told};
