//! Digests of an action and five addresses.

ghost use Rattle.std.specs.Prelude.{◌≡◌};
ghost use Rattle.std.specs.Option.{option_copied};
ghost use Rattle.lra_model.specs.Addresses.{text_of};
ghost use Rattle.lra_tables.specs.inner.Digests as words;

use lra_model::Uris;
use lra_rows::PackedAddresses;
use std::hash::{DefaultHasher, Hasher};

/// Returns the text of an address, if there is one.
fn borrowed(text: &Option<String>) -> Option<&str>
    ensures { option_copied result ≡ text_of text.now }
{
    match text {
        Some(text) => Some(text.as_str()),
        None => None,
    }
}

/// Feeds an address to the hasher, or that there is none.
fn feed(state: &mut DefaultHasher, text: Option<&str>)
    ensures { state.new ≡ words.fed (option_copied text.entry) state.old }
{
    match text {
        Some(text) => {
            state.write_u8(1);
            state.write(text.as_bytes());
            state.write_u8(255);
        }
        None => state.write_u8(0),
    }
}

/// Returns the digest of an action and five addresses under a key.
#[tactic(auto, unfolding(crate::specs::inner::Digests::digest_of))]
fn digest(
    key: u128,
    action: u64,
    compensate: Option<&str>,
    complete: Option<&str>,
    status: Option<&str>,
    forget: Option<&str>,
    after: Option<&str>,
) -> u64
    ensures { result ≡ words.digest_of key action (record {
      compensate = option_copied compensate.entry;
      complete = option_copied complete.entry;
      status = option_copied status.entry;
      forget = option_copied forget.entry;
      after = option_copied after.entry;
    }) }
{
    let mut state = DefaultHasher::new();
    state.write_u128(key);
    state.write_u64(action);
    feed(&mut state, compensate);
    feed(&mut state, complete);
    feed(&mut state, status);
    feed(&mut state, forget);
    feed(&mut state, after);
    state.finish()
}

/// Returns the digest of an action and addresses under a key.
pub(crate) fn digest_of(key: u128, action: u64, uris: &Uris) -> u64
    ensures { result ≡ words.digest_of key action uris.now }
{
    digest(
        key,
        action,
        borrowed(&uris.compensate),
        borrowed(&uris.complete),
        borrowed(&uris.status),
        borrowed(&uris.forget),
        borrowed(&uris.after),
    )
}

/// Returns the digest of an action and packed addresses under a key.
pub(crate) fn digest_of_kept(key: u128, action: u64, uris: &PackedAddresses) -> u64
    ensures { result ≡ words.digest_of key action uris.now }
{
    digest(
        key,
        action,
        uris.compensate(),
        uris.complete(),
        uris.status(),
        uris.forget(),
        uris.after(),
    )
}
