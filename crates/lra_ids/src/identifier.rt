//! The UUIDs of actions and members, and the URIs that are spelled from them.

ghost use Rattle.std.specs.Prelude.{
  ◌≡◌,
  ◌≢◌,
  ℕ,
  List,
  ◌≤◌,
  ◌<◌,
  ◌^◌,
  ◌++◌,
  Some,
  IsTrue,
  length,
  IfOk,
  IfSome,
  MatchOption,
  slice_index,
  string_bytes,
};
ghost use Rattle.uuid.specs.Uuid.{version_num};
ghost use Rattle.uuid.specs.Parts.{variant_of};
ghost use Rattle.uuid.specs.declared.Variant.TheVariants.{RFC4122};
ghost use Rattle.lra_ids.specs.Identifiers.{IsSpelling, id_bytes, id_text, action_uri, recovery_uri};
ghost use Rattle.lra_addresses.specs.Addresses.{is_base};

use lra_addresses::Address;
use lra_model::{Instance, Memory};
use std::alloc::Global;
use uuid::Uuid;

// The part between the base and an action's identifier.
pub(crate) const ACTIONS: &str = "lra-coordinator/";

pub(crate) const RECOVERIES: &str = "lra-recovery/";

// Returns the UUID of `n`, with the bits of the version and the variant (RFC 9562, sections 4.1 and 4.2).
fn id_of(instance: u64, n: u64) -> Uuid
    requires instance { instance < 2 ^ 60 }
    requires number { n < 2 ^ 62 }
    ensures value { result ≡ id_bytes instance n }
    ensures version { version_num result ≡ 8 }
    ensures variant { variant_of (slice_index result 8) ≡ RFC4122 }
{
    let high = instance / (1 << 12) * (1 << 16) + 8 * (1 << 12) + instance % (1 << 12);
    let low = 2 * (1 << 62) + n;
    Uuid::from_u64_pair(high, low)
}

// Writes the text of that UUID to the front of the buffer, and returns it.
fn write_id<'b>(instance: u64, n: u64, buffer: &'b mut [u8]) -> &'b str
    requires instance { instance < 2 ^ 60 }
    requires number { n < 2 ^ 62 }
    requires room { 36 ≤ length buffer.old }
    ensures text { result.now ≡ id_text instance n }
    ensures len { length result.now ≡ 36 }
{
    id_of(instance, n).hyphenated().encode_lower(buffer)
}

// Returns the URI of `n` in a part of the coordinator: the base, the part and the UUID.
pub(crate) fn spell(
    alloc: Global,
    instance: Instance,
    n: u64,
    base: &str,
    part: &str,
) -> Result<String, Memory>
    requires number { n < 2 ^ 62 }
    requires short { length part.now < 100 }
    ensures { IfOk result (λ uri. string_bytes uri ≡ base.now ++ part.now ++ id_text instance n) }
{
    let mut buffer = Uuid::encode_buffer();
    let id = write_id(instance.number(), n, &mut buffer);
    let mut uri = String::with_capacity(alloc, base.len() + part.len() + id.len())?;
    uri.push_str(base)?;
    uri.push_str(part)?;
    uri.push_str(id)?;
    Ok(uri)
}

// Returns the low 62 bits of the UUID that the text is, in any of its forms.
fn low_bits(text: &[u8]) -> Option<u64>
    ensures small { IfSome result (λ n. n < 2 ^ 62) }
    ensures all { (instance n : ℕ) → instance < 2 ^ 60 → n < 2 ^ 62 → text.now ≡ id_text instance n → result ≡ Some n }
{
    let (_, low) = Uuid::try_parse_ascii(text).ok()?.as_u64_pair();
    Some(low % (1 << 62))
}

fn read_bytes(text: &[u8], instance: Instance) -> Option<u64>
    ensures found { IfSome result (IsSpelling (id_text instance) text.now) }
    ensures all { (n : ℕ) → IsSpelling (id_text instance) text.now n → result ≡ Some n }
{
    let instance = instance.number();
    let n = low_bits(text)?;
    if n == 0 {
        return None;
    }
    let mut buffer = Uuid::encode_buffer();
    let own = write_id(instance, n, &mut buffer);
    if own.as_bytes() == text {
        Some(n)
    } else {
        None
    }
}

// Returns the bytes after the prefix.
fn after_prefix<'a>(text: &'a [u8], prefix: &str) -> Option<&'a [u8]>
    ensures { MatchOption result ((rest : List ℕ) → text.now ≢ prefix.now ++ rest)
        (λ rest. text.now ≡ prefix.now ++ rest.now) }
{
    text.strip_prefix(prefix.as_bytes())
}

pub(crate) fn read(text: &str, instance: Instance, base: &str, part: &str) -> Option<u64>
    ensures found { IfSome result (IsSpelling (λ n. base.now ++ part.now ++ id_text instance n) text.now) }
    ensures all { (n : ℕ) → IsSpelling (λ n. base.now ++ part.now ++ id_text instance n) text.now n → result ≡ Some n }
{
    let below = after_prefix(text.as_bytes(), base)?;
    read_bytes(after_prefix(below, part)?, instance)
}

/// Returns the URI of action `n` of a coordinator: its base, `lra-coordinator/` and the UUID.
pub fn spell_action(
    alloc: Global,
    instance: Instance,
    n: u64,
    base: &Address,
) -> Result<String, Memory>
    requires positive { 1 ≤ n }
    requires small { n < 2 ^ 62 }
    requires base { IsTrue (is_base base.now) }
    ensures { IfOk result (λ uri. string_bytes uri ≡ action_uri instance base.now n) }
{
    spell(alloc, instance, n, base.as_str(), ACTIONS)
}

/// Returns the recovery URI of member `n` of a coordinator: its base, `lra-recovery/` and the UUID.
pub fn spell_recovery(
    alloc: Global,
    instance: Instance,
    n: u64,
    base: &Address,
) -> Result<String, Memory>
    requires positive { 1 ≤ n }
    requires small { n < 2 ^ 62 }
    requires base { IsTrue (is_base base.now) }
    ensures { IfOk result (λ uri. string_bytes uri ≡ recovery_uri instance base.now n) }
{
    spell(alloc, instance, n, base.as_str(), RECOVERIES)
}

/// Returns the number of the action whose URI the text is.
pub fn read_action(text: &str, instance: Instance, base: &Address) -> Option<u64>
    ensures found { IfSome result (IsSpelling (action_uri instance base.now) text.now) }
    ensures all { (n : ℕ) → IsSpelling (action_uri instance base.now) text.now n → result ≡ Some n }
{
    read(text, instance, base.as_str(), ACTIONS)
}

/// Returns the number of the member whose recovery URI the text is.
pub fn read_recovery(text: &str, instance: Instance, base: &Address) -> Option<u64>
    ensures found { IfSome result (IsSpelling (recovery_uri instance base.now) text.now) }
    ensures all { (n : ℕ) → IsSpelling (recovery_uri instance base.now) text.now n → result ≡ Some n }
{
    read(text, instance, base.as_str(), RECOVERIES)
}

/// Returns the number of the action or the member whose UUID the text is.
pub fn read_id(text: &str, instance: Instance) -> Option<u64>
    ensures found { IfSome result (IsSpelling (id_text instance) text.now) }
    ensures all { (n : ℕ) → IsSpelling (id_text instance) text.now n → result ≡ Some n }
{
    read_bytes(text.as_bytes(), instance)
}
