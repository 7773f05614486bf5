//! Which markers hold in an environment with extras; each marker is evaluated once.
#![tactic(auto)]

mod known;
mod setting;
mod slots;

pub use known::{Known, Said};
pub use setting::Setting;
pub use slots::Slots;
