//! Laws of the definitions that contracts cite. Each is the contract of a function that does nothing.

pub mod ahead;
pub mod cases;
pub mod counted;
mod delivered;
pub mod deliveries;
pub mod kept;
pub mod pinned;
pub mod reports;
mod whole;
