//! The bearer token that callbacks give to members.

ghost use Rattle.std.specs.Prelude.{◌≡◌, true, false, IfOk, OnOk, Err, string_bytes};
ghost use Rattle.std.specs.List.{list_all};
ghost use Rattle.lra_courier.specs.Tokens as spec;

use crate::fault::TokenFault;
use std::alloc::{AllocError, Global};
use std::marker::Model;

/// Largest number of bytes of a token.
const LONGEST: usize = 4_096;

/// Bearer token, as the credentials by which a request gives it. It has no `Debug`, so that no line shows it. A
/// contract sees the credentials' text.
#[derive(Drop)]
pub struct Token {
    credentials: String,
}

impl Model for Token {
    ghost use Rattle.std.specs.Prelude.{ℕ, List, string_bytes};

    ghost Value = { List ℕ };

    ghost view = { λ t. string_bytes t.credentials };
}

/// Returns whether a byte may stand in a token, before the padding that may end it.
fn is_token_byte(byte: u8) -> bool
    ensures { result ≡ spec.is_token_byte byte }
{
    byte.is_ascii_alphanumeric() || matches!(byte, b'-' | b'.' | b'_' | b'~' | b'+' | b'/')
}

/// Returns what follows the bytes of a token that a text begins with.
fn skip_token(text: &[u8]) -> &[u8]
    ensures { result.now ≡ spec.skip_token text.now }
{
    for place in 0..text.len() {
        if !is_token_byte(text[place]) {
            return &text[place..];
        }
    }
    &text[text.len()..]
}

/// Returns whether a text is nothing but padding.
fn is_padding(text: &[u8]) -> bool
    ensures { result ≡ list_all spec.is_padding text.now }
{
    text.iter().all(|byte| *byte == b'=')
}

/// Returns whether a text is a token.
fn is_token(text: &[u8]) -> bool
    ensures { result ≡ spec.is_token text.now }
{
    let rest = skip_token(text);
    rest.len() < text.len() && text.len() <= LONGEST && is_padding(rest)
}

/// Returns the credentials by which a request gives a token.
fn credentials_of(alloc: Global, token: &str) -> Result<String, AllocError>
    ensures { IfOk result (λ text. string_bytes text ≡ spec.credentials_of token.now) }
{
    format!(in alloc; "Bearer {token}")
}

impl Token {
    /// Makes a token of its text. Returns `NotToken` where the text can't be one, and so none that would end the field
    /// in which a request gives it.
    pub fn parse(alloc: Global, text: &str) -> Result<Token, TokenFault>
        ensures ok { IfOk result (λ token. token ≡ spec.credentials_of text.now) }
        ensures token { OnOk result (spec.is_token text.now ≡ true) }
        ensures err { result ≡ Err TokenFault.NotToken → spec.is_token text.now ≡ false }
    {
        if !is_token(text.as_bytes()) {
            return Err(TokenFault::NotToken);
        }
        match credentials_of(alloc, text) {
            Ok(credentials) => Ok(Token { credentials }),
            Err(AllocError) => Err(TokenFault::Memory),
        }
    }

    // Returns the credentials by which a request gives the token.
    pub(crate) fn credentials(&self) -> &str
        ensures { result.now ≡ self.now }
    {
        self.credentials.as_str()
    }
}
