//! The listing of a journal's actions and members.

ghost use Rattle.std.specs.Prelude.{◌≡◌, IfOk, IfErr, IfSome, OnOk, string_bytes};
ghost use Rattle.std.specs.List.{flat_map};
ghost use Rattle.std.specs.Io.KnownBytes.{Appends};
ghost use Rattle.lra_audits.specs.Faults.{NamesNoLine, IsMeasured, LeavesOutput, IsOfOutput};
ghost use Rattle.lra_reports.specs.Paging.{IsPaged};
ghost use Rattle.lra_reports.specs.Show.{
  action_line,
  member_line,
  listing_text,
  account_text,
  account_status,
  ReportsListing,
};

use crate::input::list_input;
use crate::output::put_line;
use lra_auditor::{Account, ListedAction, ListedMember, Listing, Memory};
use lra_audits::{RunFault, line_of_fault, put};
use std::alloc::Global;
use std::io::{Read, Write};

fn line_of_action(alloc: Global, listed: &ListedAction) -> Result<String, Memory>
    ensures { IfOk result (λ text. string_bytes text ≡ action_line listed.now) }
{
    let action = listed.action;
    let status = listed.status.name();
    match listed.parent {
        Some(parent) => format!(in alloc; "action {action} {parent} {status}\n"),
        None => format!(in alloc; "action {action} * {status}\n"),
    }
}

fn line_of_member(alloc: Global, listed: &ListedMember) -> Result<String, Memory>
    ensures { IfOk result (λ text. string_bytes text ≡ member_line listed.now) }
{
    let member = listed.member;
    let action = listed.action;
    let status = listed.status.name();
    format!(in alloc; "member {member} {action} {status}\n")
}

fn put_actions<W: Write>(
    alloc: Global,
    writer: &mut W,
    page: &mut Vec<u8>,
    listing: &Listing,
) -> Result<(), RunFault>
    ensures written { OnOk result (IsPaged (W.contents writer.old) (W.contents writer.new)
        page.old.items page.new.items (flat_map action_line listing.now.actions)) }
    ensures fault { IfErr result IsOfOutput }
{
    for place in 0..listing.action_count() {
        if let Some(action) = listing.action(place + 1) {
            let line = line_of_action(alloc, &action)?;
            put_line(writer, page, line.as_str())?;
        }
    }
    Ok(())
}

fn put_members<W: Write>(
    alloc: Global,
    writer: &mut W,
    page: &mut Vec<u8>,
    listing: &Listing,
) -> Result<(), RunFault>
    ensures written { OnOk result (IsPaged (W.contents writer.old) (W.contents writer.new)
        page.old.items page.new.items (flat_map member_line listing.now.members)) }
    ensures fault { IfErr result IsOfOutput }
{
    for place in 0..listing.member_count() {
        if let Some(member) = listing.member(place + 1) {
            let line = line_of_member(alloc, &member)?;
            put_line(writer, page, line.as_str())?;
        }
    }
    Ok(())
}

/// Writes a listing, a page at a time.
fn put_listing<W: Write>(alloc: Global, writer: &mut W, listing: &Listing) -> Result<(), RunFault>
    ensures written { OnOk result (Appends (W.contents writer.old) (W.contents writer.new) (listing_text listing.now)) }
    ensures fault { IfErr result IsOfOutput }
{
    let mut page = Vec::new(alloc);
    put_actions(alloc, writer, &mut page, listing)?;
    put_members(alloc, writer, &mut page, listing)?;
    put(writer, &page)
}

/// Writes the text that is printed of an account.
fn put_account<W: Write>(alloc: Global, writer: &mut W, account: &Account) -> Result<(), RunFault>
    ensures written { OnOk result (Appends (W.contents writer.old) (W.contents writer.new) (account_text account.now)) }
    ensures fault { IfErr result IsOfOutput }
{
    match account {
        Account::Sound(listing) => put_listing(alloc, writer, listing),
        Account::Unsound { line, rule } => {
            let text = line_of_fault(alloc, *line, *rule)?;
            put(writer, text.as_bytes())
        }
    }
}

/// Returns the program's status for an account: 0 for a sound journal, else 1.
fn status_of(account: &Account) -> u8
    ensures { result ≡ account_status account.now }
{
    match account {
        Account::Sound(_) => 0,
        Account::Unsound { .. } => 1,
    }
}

/// Lists the actions and the members of the journal that the reader gives, or writes its first fault. Returns the
/// program's status: 0 for a sound journal, else 1.
pub fn show_run<R: Read + Drop, W: Write>(
    alloc: Global,
    mut reader: R,
    writer: &mut W,
) -> Result<u8, RunFault>
    ensures ok { IfOk result (λ status. IfSome (R.remaining reader) (λ input.
        ReportsListing input status (W.contents writer.old) (W.contents writer.new))) }
    ensures measured { IfSome (R.remaining reader) (IsMeasured result) }
    ensures left { LeavesOutput result (W.contents writer.old) (W.contents writer.new) }
    ensures fault { IfErr result NamesNoLine }
{
    let account = list_input(alloc, &mut reader)?;
    put_account(alloc, writer, &account)?;
    Ok(status_of(&account))
}
