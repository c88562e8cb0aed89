//! Modules: filters of heads, bodies and trailers that an exchange goes through in the order that
//! they name, and the module that takes gRPC-web for gRPC.
#![tactic(auto)]

mod bridge;
mod builders;
mod content_type;
mod context;
mod filters;
mod grpc_web;
mod head_filter;
mod http_module;
mod laws;
mod no_modules;
mod trailer_frame;

pub use bridge::{GrpcWeb, GrpcWebBridge};
pub use builders::HttpModules;
pub use context::HttpModuleCtx;
pub use grpc_web::GrpcWebCtx;
pub use head_filter::{HeadFilter, HeadModule};
pub use http_module::{HttpModule, HttpModuleBuilder};
pub use laws::modules_stand_in_order;
pub use no_modules::NoModules;
