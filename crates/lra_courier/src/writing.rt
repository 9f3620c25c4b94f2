//! The half of a callback that writes.

ghost use Rattle.std.specs.Prelude.{◌≡◌, ◌≢◌, IfOk, IfErr, OnOk, Err, true, false};
ghost use Rattle.lra_ids.specs.Addresses.{is_address};
ghost use Rattle.lra_courier.specs.Exchanges.{Posts};

use crate::callback::{Callback, method_of};
use crate::fault::SendFault;
use lra_ids::{Address, UriFault, address};
use lra_wire::{RequestWrite, WireFault, write_request};
use std::alloc::Global;
use std::io::Write;

// Returns the address that the text is, unchanged.
fn own_address(alloc: Global, text: &str) -> Result<Address, SendFault>
    ensures ok { IfOk result (λ own. own ≡ text.now) }
    ensures address { OnOk result (is_address text.now ≡ true) }
    ensures io { IfErr result (λ fault. fault ≢ SendFault.Io) }
    ensures err { result ≡ Err SendFault.BadAddress → is_address text.now ≡ false }
{
    match address(alloc, text) {
        Ok(own) => {
            if own.as_str() == text {
                Ok(own)
            } else {
                Err(SendFault::BadAddress)
            }
        }
        Err(UriFault::Memory) => Err(SendFault::Memory),
        Err(UriFault::NotUrl) => Err(SendFault::BadAddress),
        Err(UriFault::NotHttp) => Err(SendFault::BadAddress),
        Err(UriFault::TooLong) => Err(SendFault::BadAddress),
    }
}

impl<'a> Callback<'a> {
    /// Reads the address at which the member is asked, once for all its uses. Returns `BadAddress` where the text isn't
    /// an address unchanged, and `Memory` where memory is refused.
    pub fn to(&self, alloc: Global) -> Result<Address, SendFault>
        ensures ok { IfOk result (λ to. to ≡ self.now.address) }
        ensures address { OnOk result (is_address self.now.address ≡ true) }
        ensures io { IfErr result (λ fault. fault ≢ SendFault.Io) }
        ensures err { result ≡ Err SendFault.BadAddress → is_address self.now.address ≡ false }
    {
        own_address(alloc, self.address)
    }

    /// Writes the request as [`send`](Callback::send) does, where the address has been read.
    pub fn send_to<W: Write>(
        &self,
        alloc: Global,
        to: &Address,
        writer: &mut W,
    ) -> Result<(), SendFault>
        requires { to.now ≡ self.now.address }
        ensures { Posts (W.contents writer.old) (W.contents writer.new) self.now result }
    {
        let body = self.body();
        let Ok(size) = format!(in alloc; "{}", body.len()) else {
            return Err(SendFault::Memory);
        };
        let Ok(fields) = self.fields(alloc, to.authority(), size.as_str()) else {
            return Err(SendFault::Memory);
        };
        let request = RequestWrite {
            method: method_of(self.kind),
            target: to.target(),
            fields: fields.as_slice(),
            body: body.as_bytes(),
        };
        match write_request(alloc, writer, &request) {
            Ok(()) => Ok(()),
            Err(WireFault::Memory) => Err(SendFault::Memory),
            Err(_) => Err(SendFault::Io),
        }
    }

    /// Writes the request. Where memory is refused, or the text isn't an address unchanged, nothing is written. Where
    /// the writer fails, a prefix of the request is.
    pub fn send<W: Write>(&self, alloc: Global, writer: &mut W) -> Result<(), SendFault>
        ensures { Posts (W.contents writer.old) (W.contents writer.new) self.now result }
    {
        let to = self.to(alloc)?;
        self.send_to(alloc, &to, writer)
    }
}
