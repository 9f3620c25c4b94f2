//! The admission to a service: by secrets, whose digests stand in a file, and by the names of hosts.
#![tactic(auto)]

mod authentication_filter;
mod fault;
mod file;
mod key_cache;
mod key_store;
mod keys;
mod latest;
mod lines;
mod names;
mod told;

pub use authentication_filter::AuthenticationFilter;
pub use fault::KeysFault;
pub use file::{FileStamp, KeyFiles};
pub use key_cache::KeyCache;
pub use key_store::KeyStore;
pub use keys::Keys;
pub use latest::{Admission, KeySource};
pub use names::Name;
pub use told::{NullListener, RefusalListener, ReloadListener};
