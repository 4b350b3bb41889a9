//! Judges of what holds throughout a cell of time.
#![tactic(auto)]

mod bounded;
mod cell;
mod craft;
mod day_judge;
mod day_survey;
mod daylight;
mod far;
mod lit_judge;
mod lit_over;
mod lit_survey;
mod moment;
mod pair_judge;
mod pair_survey;
mod position;
mod scene;
mod side_over;
mod sight_over;
mod slopes;
mod survey;
mod verdict;
mod verdict_over;

pub use craft::{Craft, over};
pub use day_judge::DayJudge;
pub use far::{is_far, is_far_at};
pub use lit_judge::LitJudge;
pub use pair_judge::{PairJudge, PlainPairJudge};
