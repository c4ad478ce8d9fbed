//! The turns of a client: it reads its clock once, takes in what is due, receives once, and sends what came out. Contracts see that the clock is
//! read exactly once, and the link asked for exactly one receive.

mod attending;

pub use attending::client_turn;
