//! Requests that came by a proxy, that name identifiers under an older base or members by `https`, or that start an
//! action and give no limit. Filters rewrite each of them to the request that it means, and pass that to a handler.
#![tactic(auto)]

mod asked;
mod bodies;
mod body_filter;
mod dialect;
mod https;
mod laws;
mod limits;
mod paths;
mod requests;
mod rewrite_filter;
mod texts;

pub use body_filter::BodyFilter;
pub use laws::{joins_ask_for_http, others_mean_themselves, starts_ask_for_the_default};
pub use paths::path_of;
pub use rewrite_filter::RewriteFilter;
pub use texts::copy_bases;
