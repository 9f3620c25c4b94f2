//! The reasons why a text is no address.

use thiserror::Error;
use url::ParseError;

/// The reason why a text is no address.
#[derive(Clone, Copy, Debug, PartialEq, Eq, Error)]
pub enum UriFault {
    /// The text isn't a URL by the URL Standard.
    #[error("not a URL")]
    NotUrl,
    /// The URL's scheme isn't `http`, or its text has a byte outside 0x21 to 0x7E.
    #[error("not an http URL")]
    NotHttp,
    /// The text, or the URL's own text, has more than 512 bytes.
    #[error("longer than 512 bytes")]
    TooLong,
    /// An allocation was refused, or the URL's text came to 4 GB.
    #[error("out of memory")]
    Memory,
}

impl From<ParseError> for UriFault {
    ghost use Rattle.std.specs.Prelude.{◌≡◌};
    ghost use Rattle.lra_addresses.specs.Addresses.{fault_of};

    ghost from_gives = { λ error fault. fault ≡ fault_of error };

    fn from(error: ParseError) -> UriFault {
        match error {
            ParseError::OutOfMemory | ParseError::Overflow => UriFault::Memory,
            _ => UriFault::NotUrl,
        }
    }
}
