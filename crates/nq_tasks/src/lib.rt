//! What a host does for one ask, call by call, whatever is answered: a call, a whole file, a list of names, and tidying up behind a store that
//! was cut off. Nothing here reads a clock, a socket or a file.
#![tactic(auto)]

mod asks;
mod desk;
mod inbox;
mod listing;
mod tasks;
mod texts;
mod waiting;
mod work;

pub use asks::{Ask, Made, name_stored, own_name};
pub use desk::{Desk, asks_are_answered_once};
pub use inbox::{AskTaken, Inbox};
pub use listing::{Listed, Listing};
pub use texts::NO_MEMORY;
pub use waiting::Waiting;
pub use work::{AskReply, Came, NOBODY, Work};
