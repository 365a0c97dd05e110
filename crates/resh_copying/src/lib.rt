//! How a link reads, cuts, keeps and goes back, and how lanes take its pieces.
#![tactic(auto)]

mod applying;
mod cells;
mod cloning;
mod crashing;
mod cutting;
mod fetching;
mod pieces;
mod recording;
mod repeating;

pub use applying::{apply, may_apply};
pub use cloning::{clone, may_clone};
pub use crashing::{crash, may_crash};
pub use cutting::{cut, may_cut};
pub use fetching::{fetch, may_fetch};
pub use pieces::{next_piece, peek_next_piece, peek_piece_at, piece_at};
pub use recording::{may_record, record};
pub use repeating::{again, may_again, takes_again};
