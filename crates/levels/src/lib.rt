// Level kinds: what a cell of a sheet may hold, and how high each such level is.
#![tactic(auto)]

pub mod gray;
pub mod heat;
pub mod level;
pub mod mask;
pub mod number;

pub use gray::Gray;
pub use heat::Heat;
pub use level::Level;
pub use mask::Mask;
pub use number::Number;
