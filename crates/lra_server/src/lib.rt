//! Parts of which a service is made, beside its journals: its address, listener and dispatcher, its access policy, its
//! time-outs, what it logs, how its threads wait, and how it ends.
#![tactic(auto)]

mod access_policy;
mod base;
mod bound_address;
mod configuration_lines;
mod descriptors;
mod dispatcher;
mod ending;
mod gate;
mod latch;
mod notifier;
mod shares;
mod socket_acceptor;
mod stamina;
mod token_file;
mod toml_lines;

pub use access_policy::{
    AccessPolicy, HandlerStack, RefusalLogger, dismiss, keys_trouble, receive,
};
pub use base::{ServiceSite, site_at};
pub use bound_address::{BoundAddress, ServiceInput, bound_address_at, listener_at};
pub use configuration_lines::{put_olders, put_settings};
pub use descriptors::fit_descriptors;
pub use dispatcher::{Dispatcher, PolledListener};
pub use ending::{ServiceEnding, end_of, say, watch};
pub use gate::CallbackWorkerGate;
pub use latch::Latch;
pub use notifier::{
    LoggingNotifier, NullNotifier, OperatorsRefusalLogger, lose_callback_worker, lose_worker,
};
pub use shares::{CallbackSettings, limits_of, times_of};
pub use socket_acceptor::{SocketAcceptor, make_socket_acceptor};
pub use token_file::{TokenFile, TokenFileFault, token_trouble};
pub use toml_lines::{put_number, put_text, put_texts};
