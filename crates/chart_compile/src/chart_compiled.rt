//! The law that tables which are put together from the steps of a valid chart show it.
