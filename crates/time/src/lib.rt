// Times: the calendar, the moments that times show, and the times of a validity.
#![tactic(auto)]

mod calendar;
pub mod time;
pub mod validity;
