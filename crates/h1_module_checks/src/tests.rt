//! Modules over the heads, bodies and trailers of an exchange. None of the functions here promises
//! anything: an expectation that isn't met ends the test.
mod grpc_web;
mod lists;
mod my_filter;
mod notes;
mod noting;
mod refusals;
