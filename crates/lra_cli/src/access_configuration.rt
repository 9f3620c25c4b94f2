//! Access policy of a service, from its options.

use lra_admission::{KeyFiles, KeyStore, KeysFault, Name};
use lra_files::SmallFault;
use lra_ids::Base;
use lra_operators_server::{PortFault, read_key};
use lra_options::{Options, OptionsFault, RawOptions, Word, wrong};
use lra_rules::{Rule, RuleFault, Rules};
use lra_server::{AccessPolicy, TokenFile, TokenFileFault, keys_trouble, token_trouble};
use lra_settings::Settings;
use lra_storage::{Fence, Fenced};
use lra_traces::Traces;
use std::alloc::{AllocError, Global};
use std::fs::File;
use std::net::SocketAddr;
use std::rt::Files;
use std::sync::Arc;

/// Least and largest number of bytes of a token.
const SHORTEST: usize = 16;

const LONGEST: usize = 128;

/// Parts of a service's access policy, and its base.
#[derive(Drop)]
pub(crate) struct AccessConfiguration {
    /// Base of identifiers, if that isn't `http://`, the address and `/`.
    base: Option<Base>,
    rest: PolicyParts,
}

/// Parts of a service's access policy beside its base.
#[derive(Drop)]
pub(crate) struct PolicyParts {
    is_strict: bool,
    keys: Option<KeyStore>,
    names: Vec<Name>,
    rules: Rules,
    /// Limit in milliseconds of starts that give none, or 0.
    default_limit: u64,
    /// Address of the proxy by which members are called, if they are.
    members_via: Option<SocketAddr>,
    /// Seconds after which a request may be sent again, in replies to those refused for what goes away by itself.
    retry_after: Option<u64>,
    /// File of the token that callbacks give to members, if they give one.
    member_token: Option<TokenFile>,
    /// Traces of the requests that end actions, if they are passed on.
    traces: Option<Traces>,
    /// Flag that services speak the dialect of clients of MicroProfile LRA.
    speaks_dialect: bool,
    fence: Option<Arc<Fence>>,
}

impl AccessConfiguration {
    /// Returns the base, and the other parts.
    pub(crate) fn parted(self) -> (Option<Base>, PolicyParts) {
        let AccessConfiguration { base, rest } = self;
        (base, rest)
    }
}

impl PolicyParts {
    /// Returns the access policy, where identifiers in requests may begin with these older bases too.
    pub(crate) fn access_policy<'a>(&'a self, olders: &'a [Base]) -> AccessPolicy<'a> {
        AccessPolicy {
            olders,
            is_strict: self.is_strict,
            keys: self.keys.as_ref(),
            names: &self.names,
            rules: &self.rules,
            default_limit: self.default_limit,
            members_via: self.members_via,
            retry_after: self.retry_after,
            member_token: self.member_token.as_ref(),
            traces: self.traces.as_ref(),
            speaks_dialect: self.speaks_dialect,
        }
    }

    /// Returns the fence, which names the folder's owner, if there is one.
    pub(crate) fn fence(&self) -> Option<&Arc<Fence>> {
        self.fence.as_ref()
    }
}

/// Returns the fault of a file of keys.
fn keys_fault(alloc: Global, path: &str, fault: KeysFault) -> OptionsFault {
    if fault == KeysFault::Memory {
        return OptionsFault::Memory;
    }
    match keys_trouble(alloc, path, fault) {
        Some(why) => OptionsFault::Wrong(why),
        None => OptionsFault::Memory,
    }
}

/// Reads the keys of the file that the options name, if they name one.
fn keys_of<R: AllocGlobal + Files<File = File> + KeyFiles>(
    rt: &R,
    said: &RawOptions<'_>,
) -> Result<Option<KeyStore>, OptionsFault> {
    let alloc = rt.alloc();
    let Some(path) = said.text(Word::Key) else {
        return Ok(None);
    };
    match KeyStore::open(rt, alloc, path) {
        Ok(key_store) => Ok(Some(key_store)),
        Err(fault) => Err(keys_fault(alloc, path, fault)),
    }
}

/// Reads the token of the file for members that the options name, if they name one.
fn member_token_of<R: AllocGlobal + Files<File = File> + KeyFiles>(
    rt: &R,
    said: &RawOptions<'_>,
) -> Result<Option<TokenFile>, OptionsFault> {
    let alloc = rt.alloc();
    let Some(path) = said.text(Word::MemberToken) else {
        return Ok(None);
    };
    match TokenFile::open(rt, alloc, path) {
        Ok(file) => Ok(Some(file)),
        Err(TokenFileFault::Unread(fault)) => Err(keys_fault(alloc, path, fault)),
        Err(fault) => match token_trouble(alloc, path, fault) {
            Some(why) => Err(OptionsFault::Wrong(why)),
            None => Err(OptionsFault::Memory),
        },
    }
}

/// Returns the fence, which names the folder's owner, if the options name its file.
fn fence_of<R: AllocGlobal + Fenced>(
    rt: &R,
    said: &RawOptions<'_>,
) -> Result<Option<Arc<Fence>>, OptionsFault> {
    let alloc = rt.alloc();
    let Some(path) = said.text(Word::Fence) else {
        return Ok(None);
    };
    match rt.fence(path) {
        Ok(fence) => match Arc::new(alloc, fence) {
            Ok(fence) => Ok(Some(fence)),
            Err(refused) => {
                drop(refused);
                Err(OptionsFault::Memory)
            }
        },
        Err(SmallFault::Memory) => Err(OptionsFault::Memory),
        Err(SmallFault::TooLong) => Err(keys_fault(alloc, path, KeysFault::TooLong)),
        Err(SmallFault::File) => Err(keys_fault(alloc, path, KeysFault::File)),
    }
}

/// Returns the names by which clients call the service.
fn names_of(alloc: Global, said: &RawOptions<'_>) -> Result<Vec<Name>, OptionsFault> {
    let mut names = Vec::new(alloc);
    for text in said.texts(alloc, Word::Origin)? {
        match Name::read(alloc, text) {
            Ok(Some(name)) => names.push(name)?,
            Ok(None) => {
                let what = format!(in alloc; "no name: {text}");
                return Err(said.refused(alloc, Word::Origin, what));
            }
            Err(_) => return Err(OptionsFault::Memory),
        }
    }
    Ok(names)
}

/// Returns the rules for where members may be.
fn rules_of(alloc: Global, said: &RawOptions<'_>) -> Result<Rules, OptionsFault> {
    let mut rules = Vec::new(alloc);
    for text in said.texts(alloc, Word::Members)? {
        match Rule::read(alloc, text) {
            Ok(rule) => rules.push(rule)?,
            Err(RuleFault::Memory) => return Err(OptionsFault::Memory),
            Err(_) => {
                let what = format!(in alloc; "no rule: {text}");
                return Err(said.refused(alloc, Word::Members, what));
            }
        }
    }
    Ok(Rules::new(rules))
}

/// Returns the address of the proxy by which members are called, if the options name it.
fn members_via_of(
    alloc: Global,
    said: &RawOptions<'_>,
) -> Result<Option<SocketAddr>, OptionsFault> {
    let Some(text) = said.text(Word::MembersVia) else {
        return Ok(None);
    };
    match text.parse::<SocketAddr>() {
        Ok(address) if address.port() != 0 => Ok(Some(address)),
        _ => {
            let what = format!(in alloc; "no IP address and port: {text}");
            Err(said.refused(alloc, Word::MembersVia, what))
        }
    }
}

/// Returns the traces of the requests that end actions, if they are passed on.
fn traces_of(alloc: Global, is_passed_on: bool) -> Option<Traces> {
    if is_passed_on {
        Some(Traces::new(alloc))
    } else {
        None
    }
}

/// Returns whether services speak the dialect of clients of MicroProfile LRA, if the options name one.
fn dialect_of(alloc: Global, said: &RawOptions<'_>) -> Result<bool, OptionsFault> {
    match said.text(Word::Dialect) {
        Some("narayana") => Ok(true),
        Some(text) => {
            let what = format!(in alloc; "{text} is not narayana");
            Err(said.refused(alloc, Word::Dialect, what))
        }
        None => Ok(false),
    }
}

/// Returns whether a text may be the last part of a base, and is long enough that nobody guesses it.
fn is_token(text: &str) -> bool {
    let is_plain = text.as_bytes().iter().all(|byte| byte.is_ascii_alphanumeric()
        || *byte == b'-'
        || *byte == b'_');
    SHORTEST <= text.len() && text.len() <= LONGEST && is_plain
}

/// Returns the fault of a file without a token.
fn no_token(alloc: Global, path: &str) -> OptionsFault {
    wrong(format!(in alloc; "{path}: no token of 16 to 128 letters, digits, - and _"))
}

/// Reads the token of a file.
fn token_in<R: AllocGlobal + Files<File = File> + KeyFiles>(
    rt: &R,
    path: &str,
) -> Result<String, OptionsFault> {
    let alloc = rt.alloc();
    match read_key(rt, alloc, path) {
        Ok(token) if is_token(token.as_str()) => Ok(token),
        Ok(token) => {
            drop(token);
            Err(no_token(alloc, path))
        }
        Err(PortFault::Memory) => Err(OptionsFault::Memory),
        Err(PortFault::KeyFile) => Err(keys_fault(alloc, path, KeysFault::File)),
        Err(PortFault::SharedKey) => Err(keys_fault(alloc, path, KeysFault::Shared)),
        Err(_) => Err(no_token(alloc, path)),
    }
}

/// Returns a base with a token after it.
fn base_with(
    alloc: Global,
    said: &RawOptions<'_>,
    base: &str,
    token: &str,
) -> Result<Base, OptionsFault> {
    let text = format!(in alloc; "{base}{token}/")?;
    match Base::read(alloc, text.as_str()) {
        Ok(Some(base)) => Ok(base),
        Ok(None) => Err(said.refused(alloc, Word::Token, format!(in alloc; "no base: {base}"))),
        Err(_) => Err(OptionsFault::Memory),
    }
}

/// Copies the base that the options name, if they name one.
pub(crate) fn copy_base(options: &Options<'_>) -> Result<Option<Base>, AllocError> {
    match &options.base {
        Some(base) => Ok(Some(base.copy()?)),
        None => Ok(None),
    }
}

/// Returns the base of identifiers at an address, if it isn't `http://`, the address and `/`, and whether a part of it
/// is a secret.
fn base_of<R: AllocGlobal + Files<File = File> + KeyFiles>(
    rt: &R,
    options: &Options<'_>,
    address: &str,
) -> Result<(Option<Base>, bool), OptionsFault> {
    let alloc = rt.alloc();
    let Some(path) = options.said.text(Word::Token) else {
        return Ok((copy_base(options)?, false));
    };
    let token = token_in(rt, path)?;
    let base = match &options.base {
        Some(base) => base_with(alloc, &options.said, base.as_str(), token.as_str()),
        None => {
            let own = format!(in alloc; "http://{address}/")?;
            base_with(alloc, &options.said, own.as_str(), token.as_str())
        }
    };
    drop(token);
    Ok((Some(base?), true))
}

/// Returns the seconds after which replies say that a request may be sent again, if they do.
fn retry_after_of(settings: &Settings) -> Option<u64> {
    match settings.retry_after_seconds {
        0 => None,
        seconds => Some(seconds),
    }
}

/// Returns the parts of the access policy of a service at an address.
pub(crate) fn access_configuration_of<R: AllocGlobal + Files<File = File> + KeyFiles + Fenced>(
    rt: &R,
    options: &Options<'_>,
    address: &str,
) -> Result<AccessConfiguration, OptionsFault> {
    let alloc = rt.alloc();
    let (base, is_strict) = base_of(rt, options, address)?;
    Ok(AccessConfiguration {
        base,
        rest: PolicyParts {
            is_strict,
            keys: keys_of(rt, &options.said)?,
            names: names_of(alloc, &options.said)?,
            rules: rules_of(alloc, &options.said)?,
            members_via: members_via_of(alloc, &options.said)?,
            member_token: member_token_of(rt, &options.said)?,
            speaks_dialect: dialect_of(alloc, &options.said)?,
            default_limit: options.settings.default_limit_ms,
            retry_after: retry_after_of(&options.settings),
            traces: traces_of(alloc, options.settings.trace_context),
            fence: fence_of(rt, &options.said)?,
        },
    })
}
