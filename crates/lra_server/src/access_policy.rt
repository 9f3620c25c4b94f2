//! Access policy: how requests are accepted, and members are called.

ghost use Rattle.std.specs.Prelude.{◌≡◌};

use crate::token_file::TokenFile;
use lra_admission::{
    AuthenticationFilter, KeyCache, KeyFiles, KeyStore, KeysFault, Name, RefusalListener,
    ReloadListener,
};
use lra_callbacks::SharedToken;
use lra_front::ApiError;
use lra_ids::Base;
use lra_logs::{Event, EventSink, Port};
use lra_member_rules::MemberRulesFilter;
use lra_narayana::DialectRouter;
use lra_opening::Notifier;
use lra_operators_server::{CountingHandler, Tallies};
use lra_rewrite::{BodyFilter, RewriteFilter, copy_bases};
use lra_rules::Rules;
use lra_steps::Handler;
use lra_traces::Traces;
use std::alloc::{AllocError, Global};
use std::net::SocketAddr;
use std::sync::Wait;
use std::time::Clock;

/// Access policy by which a service accepts requests, and calls members.
#[derive(Clone, Copy)]
pub struct AccessPolicy<'a> {
    /// Older bases with which identifiers may begin, too.
    pub olders: &'a [Base],
    /// Flag, set if nothing is served but under the path of the base.
    pub is_strict: bool,
    /// Keys of which each request has to give one, if they are asked for.
    pub keys: Option<&'a KeyStore>,
    /// Host names, or hosts and ports, by which requests have to come, if there are any.
    pub names: &'a [Name],
    /// Rules for the addresses of members.
    pub rules: &'a Rules,
    /// Limit in milliseconds of starts that give none, or 0.
    pub default_limit: u64,
    /// Address of the proxy by which members are called, if they are.
    pub members_via: Option<SocketAddr>,
    /// Seconds after which a request may be sent again, in replies to those refused for what goes away by itself.
    pub retry_after: Option<u64>,
    /// File of the token that callbacks give to members, if they give one.
    pub member_token: Option<&'a TokenFile>,
    /// Traces of the requests that end actions, if callbacks bear them.
    pub traces: Option<&'a Traces>,
    /// Flag, set if requests are of the dialect of clients of MicroProfile LRA.
    pub speaks_dialect: bool,
}

impl<'a> AccessPolicy<'a> {
    /// Returns the access policy of a service that lets all requests in, and whose members may be where these rules
    /// allow.
    pub fn usual(rules: &'a Rules) -> AccessPolicy<'a> {
        AccessPolicy {
            olders: &[],
            is_strict: false,
            keys: None,
            names: &[],
            rules,
            default_limit: 0,
            members_via: None,
            retry_after: None,
            member_token: None,
            traces: None,
            speaks_dialect: false,
        }
    }

    /// Returns the token that callbacks give to members, if they give one.
    pub fn shared_token(&self) -> Option<&'a SharedToken> {
        match self.member_token {
            Some(file) => Some(file.token()),
            None => None,
        }
    }

    /// Reads the file of the members' token again if there is one and it has changed, and reports the outcome.
    pub fn look<R: KeyFiles + Wait, H: Notifier>(&self, rt: &R, notifier: &H) {
        if let Some(file) = self.member_token {
            file.look(rt, notifier);
        }
    }
}

/// Observer of the requests that a service refuses, and of the reloads of its keys.
#[derive(Drop)]
pub struct RefusalLogger<'a, H> {
    alloc: Global,
    notifier: &'a H,
    tallies: &'a Tallies,
    /// Name of the keys' file, if there is one.
    path: &'a str,
}

/// Handler within the filters of an access policy, with a count of the requests that are let in.
pub type HandlerStack<'a, R, H, A> = AuthenticationFilter<
    RewriteFilter<CountingHandler<'a, BodyFilter<MemberRulesFilter<'a, A>>, R>>,
    KeyCache<'a, R, RefusalLogger<'a, H>>,
    RefusalLogger<'a, H>,
>;

impl<'a, H> RefusalLogger<'a, H> {
    /// Returns the observer of a service with this access policy.
    pub fn new(
        alloc: Global,
        access_policy: AccessPolicy<'a>,
        notifier: &'a H,
        tallies: &'a Tallies,
    ) -> RefusalLogger<'a, H> {
        let path = match access_policy.keys {
            Some(book) => book.path(),
            None => "",
        };
        RefusalLogger {
            alloc,
            notifier,
            tallies,
            path,
        }
    }
}

impl<H: Notifier + EventSink> RefusalListener for RefusalLogger<'_, H> {
    fn denied(&self, api_error: ApiError) {
        self.tallies.denied(api_error);
        self.notifier.note(&Event::Refused {
            port: Port::Services,
            code: api_error.status().as_u16(),
        });
    }
}

/// Returns why the keys of a file stay as they were, or why there are none.
pub fn keys_trouble(alloc: Global, path: &str, fault: KeysFault) -> Option<String> {
    let text = match fault {
        KeysFault::File => format!(in alloc; "cannot read {path}"),
        KeysFault::Shared => format!(in alloc; "{path}: others than its owner may read it"),
        KeysFault::TooLong => format!(in alloc; "{path}: too long"),
        KeysFault::Line(line) => format!(in alloc; "{path}: line {line} is no name and SHA-256"),
        KeysFault::Memory => format!(in alloc; "out of memory"),
    };
    text.ok()
}

impl<H: Notifier> ReloadListener for RefusalLogger<'_, H> {
    fn renewed(&self, outcome: Result<(), KeysFault>) {
        let path = self.path;
        let line = match outcome {
            Ok(()) => format!(in self.alloc; "lra: the keys of {path} were read again\n").ok(),
            Err(fault) => match keys_trouble(self.alloc, path, fault) {
                Some(why) => format!(in self.alloc;
                    "lra: {why}: the keys of before stay in force\n"
                ).ok(),
                None => None,
            },
        };
        if let Some(line) = line {
            self.notifier.notify(line.as_str());
        }
    }
}

/// Makes the router of the dialect, if requests are of it.
fn dialect_router(alloc: Global, speaks: bool) -> Result<Option<DialectRouter>, AllocError> {
    if !speaks {
        return Ok(None);
    }
    match DialectRouter::new(alloc) {
        Ok(router) => Ok(Some(router)),
        Err(fault) => Err(fault),
    }
}

/// Adds the filters of an access policy to a handler. Returns the handler if memory is refused.
pub fn receive<'a, R: Wait + Clock + KeyFiles, H: Notifier + EventSink, A: Handler>(
    rt: &'a R,
    alloc: Global,
    access_policy: AccessPolicy<'a>,
    refusal_logger: &'a RefusalLogger<'a, H>,
    inner: A,
) -> Result<HandlerStack<'a, R, H, A>, A> {
    let Ok(olders) = copy_bases(alloc, access_policy.olders) else {
        return Err(inner);
    };
    let Ok(dialect) = dialect_router(alloc, access_policy.speaks_dialect) else {
        drop(olders);
        return Err(inner);
    };
    let Ok(key_cache) = KeyCache::new(rt, refusal_logger, access_policy.keys, access_policy.names)
    else {
        drop(olders);
        drop(dialect);
        return Err(inner);
    };
    let member_rules_filter = MemberRulesFilter::new(inner, access_policy.rules);
    let body_filter = BodyFilter::new(
        member_rules_filter,
        access_policy.default_limit,
        access_policy.members_via.is_some(),
    );
    let counted = CountingHandler::new(
        body_filter,
        rt,
        refusal_logger.tallies,
        access_policy.traces,
    );
    let rewrite_filter = RewriteFilter::new(counted, olders, access_policy.is_strict, dialect);
    let told = RefusalLogger::new(
        alloc,
        access_policy,
        refusal_logger.notifier,
        refusal_logger.tallies,
    );
    Ok(AuthenticationFilter::new(rewrite_filter, key_cache, told, access_policy.retry_after))
}

/// Takes a handler out of the filters of an access policy.
pub fn dismiss<'a, R, H, A: Handler>(handler_stack: HandlerStack<'a, R, H, A>) -> A
where
    R: Wait + Clock + KeyFiles,
    H: Notifier + EventSink,
{
    handler_stack
        .into_inner()
        .into_inner()
        .into_inner()
        .into_inner()
        .into_inner()
}
