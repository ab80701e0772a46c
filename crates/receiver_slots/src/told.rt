//! What calls tell, by numbers.

pub(crate) mod facts;
pub(crate) mod numbers;
pub(crate) mod port_counts;
pub(crate) mod replies;
