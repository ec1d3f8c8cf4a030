//! What each command does, a file a command.

pub mod audit;
pub mod capture;
pub mod check;
pub mod dissect;
pub mod draw;
pub mod make;
pub mod roll;
pub mod run;
pub mod try_made;
