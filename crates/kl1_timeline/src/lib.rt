//! The processes of a run as a picture, and what is told of a run's steps together: a trace, a profile, a picture.
#![tactic(auto)]

mod drawn;
mod labels;
mod lanes;
mod observers;
mod picture;
mod svg;
mod timeline;

pub use observers::{Observers, draw_new};
pub use picture::put_picture;
pub use timeline::Timeline;
