//! The reader of the instances of identifiers.

ghost use Rattle.std.specs.Prelude.{◌≡◌};
ghost use Rattle.lra_ids.specs.Bearing as spec;

use lra_model::Instance;
use uuid::Uuid;

/// The number of characters in the text of an identifier.
const ID_LENGTH: usize = 36;

/// Returns the instance in a text that is a UUID in any of its forms. Doesn't check whether the text is spelled as an
/// identifier.
pub fn instance_in(text: &[u8]) -> Option<Instance>
    ensures { result ≡ spec.instance_in text.now }
{
    let (high, _) = Uuid::try_parse_ascii(text).ok()?.as_u64_pair();
    Instance::new(high / (1 << 16) * (1 << 12) + high % (1 << 12))
}

/// Returns the instance in the last 36 bytes of a URI, or in all its bytes if it has fewer.
pub fn instance_at_end(uri: &[u8]) -> Option<Instance>
    ensures { result ≡ spec.instance_at_end uri.now }
{
    let before = uri.len().saturating_sub(ID_LENGTH);
    instance_in(&uri[before..])
}
