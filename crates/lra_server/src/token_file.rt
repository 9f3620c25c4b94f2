//! The file of the token that callbacks give to members.

ghost use Rattle.std.specs.Prelude.{◌≡◌, IfOk, string_bytes};

use crate::access_policy::keys_trouble;
use lra_admission::{FileStamp, KeyFiles, KeysFault};
use lra_callbacks::SharedToken;
use lra_courier::{Token, TokenFault};
use lra_opening::Notifier;
use std::alloc::{AllocError, Global};
use std::sync::{Arc, Mutex, Wait};

/// Largest number of bytes of the file: the longest token, and the end of its line.
const LONGEST: u32 = 4_098;

/// Reason why a file has no token.
#[derive(Clone, Copy, PartialEq, Eq)]
pub enum TokenFileFault {
    /// The file isn't read.
    Unread(KeysFault),
    /// The file has more than one line.
    Lines,
    /// The file's line is no bearer token.
    NotToken,
}

impl From<AllocError> for TokenFileFault {
    ghost use Rattle.std.specs.Prelude.{◌≡◌};
    ghost use Rattle.lra_admission.specs.declared.fault.KeysFault.TheVariants.{Memory};
    ghost use Rattle.lra_server.specs.declared.token_file.TokenFileFault.TheVariants.{Unread};

    ghost from_gives = { λ error fault. fault ≡ Unread Memory };

    fn from(_error: AllocError) -> TokenFileFault {
        TokenFileFault::Unread(KeysFault::Memory)
    }
}

/// File of the token that callbacks give to members, and the token in force.
#[derive(Drop)]
pub struct TokenFile {
    alloc: Global,
    path: String,
    /// Fingerprint of the file whose token, or whose fault, is known.
    seen: Mutex<Option<FileStamp>>,
    token: SharedToken,
}

/// Returns a line without its end.
fn line_of(text: &str) -> &str {
    match text.strip_suffix("\n") {
        Some(line) => line.strip_suffix("\r").unwrap_or(line),
        None => text,
    }
}

/// Makes a token shared.
fn shared(alloc: Global, token: Token) -> Result<Arc<Token>, TokenFileFault> {
    match Arc::new(alloc, token) {
        Ok(token) => Ok(token),
        Err(refused) => {
            drop(refused);
            Err(TokenFileFault::Unread(KeysFault::Memory))
        }
    }
}

/// Returns the token that a line is.
fn token_of(alloc: Global, line: &str) -> Result<Arc<Token>, TokenFileFault> {
    if line.as_bytes().contains(&b'\n') {
        return Err(TokenFileFault::Lines);
    }
    match Token::parse(alloc, line) {
        Ok(token) => shared(alloc, token),
        Err(TokenFault::NotToken) => Err(TokenFileFault::NotToken),
        Err(TokenFault::Memory) => Err(TokenFileFault::Unread(KeysFault::Memory)),
    }
}

/// Returns the token that the text of a file has on its one line.
fn token_in(alloc: Global, text: &[u8]) -> Result<Arc<Token>, TokenFileFault> {
    match str::from_utf8(text) {
        Ok(text) => token_of(alloc, line_of(text)),
        Err(_) => Err(TokenFileFault::NotToken),
    }
}

/// Reads the token of the file of a name, if its fingerprint shows that there is such a file.
fn read_at<R: KeyFiles>(
    rt: &R,
    alloc: Global,
    path: &str,
    seen: &Option<FileStamp>,
) -> Result<Arc<Token>, TokenFileFault> {
    if seen.is_none() {
        return Err(TokenFileFault::Unread(KeysFault::File));
    }
    match rt.read_secret(alloc, path, LONGEST) {
        Ok(text) => token_in(alloc, text.as_slice()),
        Err(fault) => Err(TokenFileFault::Unread(fault)),
    }
}

/// Returns why the token of a file stays as it was, or why there is none. It tells nothing of what the file has.
pub fn token_trouble(alloc: Global, path: &str, fault: TokenFileFault) -> Option<String> {
    match fault {
        TokenFileFault::Unread(fault) => keys_trouble(alloc, path, fault),
        TokenFileFault::Lines => format!(in alloc; "{path}: more than one line").ok(),
        TokenFileFault::NotToken => format!(in alloc; "{path}: no bearer token").ok(),
    }
}

impl TokenFile {
    /// Reads the token of the file of a name, which nobody but its owner may read or write.
    pub fn open<R: KeyFiles>(rt: &R, alloc: Global, path: &str) -> Result<TokenFile, TokenFileFault>
        ensures { IfOk result (λ file. string_bytes file.path ≡ path.now) }
    {
        let path = String::from_str(alloc, path)?;
        let seen = rt.stamp(path.as_str());
        let token = read_at(rt, alloc, path.as_str(), &seen)?;
        Ok(TokenFile {
            alloc,
            path,
            seen: Mutex::new(seen),
            token: SharedToken::new(token),
        })
    }

    /// Returns the token in force, for callback workers.
    pub fn token(&self) -> &SharedToken {
        &self.token
    }

    /// Notes that the file of this fingerprint was read, unless memory was refused: then it is read once more.
    fn note<R: Wait>(&self, rt: &R, seen: Option<FileStamp>, fault: Option<TokenFileFault>) {
        if fault != Some(TokenFileFault::Unread(KeysFault::Memory)) {
            *self.seen.lock(rt) = seen;
        }
    }

    /// Reads the file again if it has changed since it was read last, and returns the outcome of that. If it has no
    /// token now, the present one stays in force.
    fn renew<R: KeyFiles + Wait>(&self, rt: &R) -> Option<Result<(), TokenFileFault>> {
        let path = self.path.as_str();
        let seen = rt.stamp(path);
        if seen == *self.seen.lock(rt) {
            return None;
        }
        match read_at(rt, self.alloc, path, &seen) {
            Ok(token) => {
                self.token.set(rt, token);
                self.note(rt, seen, None);
                Some(Ok(()))
            }
            Err(fault) => {
                self.note(rt, seen, Some(fault));
                Some(Err(fault))
            }
        }
    }

    /// Returns the line about the outcome of reading the file again.
    fn line(&self, outcome: Result<(), TokenFileFault>) -> Option<String> {
        let path = self.path.as_str();
        match outcome {
            Ok(()) => format!(in self.alloc; "lra: the token of {path} was read again\n").ok(),
            Err(fault) => {
                let why = token_trouble(self.alloc, path, fault)?;
                format!(in self.alloc; "lra: {why}: the token of before stays in force\n").ok()
            }
        }
    }

    /// Reads the file again if it has changed, and reports the outcome.
    pub fn look<R: KeyFiles + Wait, H: Notifier>(&self, rt: &R, notifier: &H) {
        let Some(outcome) = self.renew(rt) else {
            return;
        };
        if let Some(line) = self.line(outcome) {
            notifier.notify(line.as_str());
        }
    }
}
