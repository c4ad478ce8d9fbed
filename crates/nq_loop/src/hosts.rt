//! What holds of real hosts: leases never conflict at a server of the code, and a loop over real links answers all calls.

pub mod loops;
pub mod served;
