//! Storms: what may happen next, and who chooses.
//!
//! At each moment of a storm an [`Offer`] tells a [`Fate`] how the menu of that moment is laid out; the fate answers a
//! number, and the event at that place of the menu happens. The menu is in `specs/Menu`, and the rules of the four fates
//! are in `specs/Rules`. Nothing is assumed of what a fate answers.

mod fate;
mod fates;
mod menus;
mod offers;
mod words;

pub use fate::{Fate, choose_event};
pub use fates::{CutFate, HostileFate, LossyFate, SteadyFate};
pub use menus::{event_at, menu_is_offered};
pub use offers::Offer;
pub use words::RandomWords;
