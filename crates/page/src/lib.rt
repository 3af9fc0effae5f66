//! The exports of the page's module.
#![tactic(auto)]

pub use answer::Answer;
pub use every::AskedEvery;
pub use seeds::{AskedCampaign, AskedChoices, AskedDraw};

mod answer;
mod asked;
mod every;
mod exports;
mod seed_exports;
mod seeds;
