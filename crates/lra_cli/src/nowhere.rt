//! Warning that the identifiers of a service lead nowhere.

use lra_opening::Notifier;
use lra_options::{Options, Word};
use std::alloc::{AllocError, Global};

/// Returns whether an address stands for all addresses of a machine. A service can listen there, but other machines
/// can't connect to it.
fn is_unspecified(address: &str) -> bool {
    let host = match address.rsplit_once(':') {
        Some((host, _)) if !address.ends_with(']') => host,
        _ => address,
    };
    host == "0.0.0.0" || host == "[::]"
}

/// Returns the warning about identifiers with an address that leads nowhere.
fn nowhere_line(alloc: Global, address: &str) -> Result<String, AllocError> {
    format!(in alloc;
        "lra: identifiers that begin with http://{address}/ lead nowhere: name by --base \
         where clients reach this service\n"
    )
}

/// Warns if the identifiers of a service at an address lead nowhere.
pub(crate) fn warn_of_nowhere<H: Notifier>(
    alloc: Global,
    options: &Options<'_>,
    address: &str,
    notifier: &H,
) {
    if options.base.is_none()
        && is_unspecified(address)
        && let Ok(line) = nowhere_line(alloc, address)
    {
        notifier.notify(line.as_str());
    }
}
