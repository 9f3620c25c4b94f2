//! The member that has joined an action with the same addresses already.

ghost use Rattle.std.specs.Prelude.{◌≡◌, ◌+◌, ◌≤◌, ◌&&◌, not};
ghost use Rattle.lra_model.specs.declared.entry.Deed.TheVariants as deeds;
ghost use Rattle.lra_model.specs.declared.entry.Entry.{Entry as EntryValue};
ghost use Rattle.lra_model.specs.History.{History};
ghost use Rattle.lra_model.specs.Joins.{already_member};
ghost use Rattle.lra_laws.specs.Snapshots.{StandsFor};
ghost use Rattle.lra_tables.specs.inner.Kept.{IsKept, IsKeptBefore, TakesOne};
ghost use Rattle.lra_tables.specs.inner.Same.{found_same};

use crate::membership_index::MembershipIndex;
use lra_model::{Deed, Entry, MemberStatus, Uris};
use lra_rows::Rows;

/// Returns whether a member of the action is there, hasn't left, and has these addresses.
fn is_same_member(rows: &Rows, number: u64, action: u64, uris: &Uris) -> bool
    ensures { (J : History) → StandsFor rows.now.snapshot J → result ≡ found_same J action uris.now number }
{
    let Some(row) = rows.member(number) else {
        return false;
    };
    let Some(addresses) = rows.addresses(number) else {
        return false;
    };
    row.action == action && !matches!(row.status, MemberStatus::Left) && addresses.is_same(uris)
}

/// Returns the least member of an action that hasn't left and has these addresses already, found among those whose
/// digest is the same.
pub(crate) fn find_joined(
    index: &MembershipIndex,
    rows: &Rows,
    action: u64,
    uris: &Uris,
) -> Option<u64>
    requires { IsKept index.now rows.now.snapshot }
    ensures { (J : History) → StandsFor rows.now.snapshot J → result ≡ already_member J action uris.now }
{
    let digest = index.digest(action, uris);
    for rank in 0..u64::MAX {
        match index.number(digest, rank) {
            Some(number) => {
                if is_same_member(rows, number, action, uris) {
                    return Some(number);
                }
            }
            None => return None,
        }
    }
    None
}

/// Removes a member that has left from the index.
fn forget(index: &mut MembershipIndex, rows: &Rows, member: u64)
    requires { (e : EntryValue) × IsKeptBefore index.old e rows.now.snapshot × (e.deed ≡ deeds.Leave member) }
    ensures kept { IsKept index.new rows.now.snapshot }
    ensures key { index.new.key ≡ index.old.key }
    ensures room { index.old.room ≤ index.new.room }
{
    let row = match rows.member(member) {
        Some(row) => row,
        None => return,
    };
    let addresses = match rows.addresses(member) {
        Some(addresses) => addresses,
        None => return,
    };
    let digest = index.digest_of_kept(row.action, addresses);
    index.remove(digest, member);
}

/// Updates the index by an entry that the rows have already: adds the member that joins, for which there is room, or
/// removes the one that leaves.
pub(crate) fn keep(index: &mut MembershipIndex, rows: &Rows, entry: &Entry)
    requires before { IsKeptBefore index.old entry.now rows.now.snapshot }
    requires room { TakesOne entry.now.deed index.old }
    ensures kept { IsKept index.new rows.now.snapshot }
    ensures key { index.new.key ≡ index.old.key }
    ensures room { index.old.room ≤ index.new.room + 1 }
{
    match &entry.deed {
        Deed::Join {
            member,
            action,
            uris,
        } => {
            let digest = index.digest(*action, uris);
            index.add(digest, *member);
        }
        Deed::Leave { member } => forget(index, rows, *member),
        _ => {}
    }
}
