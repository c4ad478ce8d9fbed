//! A judge of anybody's journal: whether it is sound, and which of its entries is the first at fault.
#![tactic(auto)]

mod along;
mod apart;
mod covering;
mod endings;
mod fates;
mod fronts;
mod judge;
mod kept_front;
pub mod laws;
mod legal;
mod links;
mod namings;
mod ordering;
mod puts;
mod reported_front;
mod reports;
mod rising;
mod rules;
mod settled;
mod stored;
mod syncs;
mod tables;
mod trail;

pub use judge::check;
pub use rules::{Judged, Rule};
