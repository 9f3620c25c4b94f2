//! Checks at the end of a run: the auditor audits each journal, and what clients and members saw is compared with it.

use super::checks::{check_end, check_member, check_nested};
use super::client::Client;
use super::counts::{Counts, Ends, add, add_one};
use super::member::Member;
use super::site::Site;
use anyhow::{Context, Result, bail, ensure};
use lra_auditor::{Account, Auditor, ListedAction, Listing};
use lra_model::MemberStatus;
use std::alloc::Global;

/// Clients and members, with what they saw.
#[derive(Clone, Copy)]
pub struct Seen<'a> {
    pub clients: &'a [Client],
    pub members: &'a [Member],
}

/// Audits a journal, which has to be sound, and returns the auditor's listing of it.
fn listing_of(alloc: Global, text: &[u8]) -> Result<Listing> {
    let mut auditor = Auditor::new(alloc);
    auditor.feed(text)?;
    match auditor.list()? {
        Account::Sound(listing) => Ok(listing),
        Account::Unsound { line, rule } => bail!("line {line} breaks rule {}", rule.name()),
    }
}

/// Counts the lines of a journal.
fn count_lines(text: &[u8]) -> usize {
    text.iter().filter(|&&byte| byte == b'\n').count()
}

/// Flags for the numbers of a journal's actions and members: a flag is set once a client or a member was told its
/// number.
#[derive(Drop)]
struct Owners {
    actions: Vec<bool>,
    members: Vec<bool>,
}

/// Returns this many flags, for the numbers from 1 on. None is set.
fn nobody(alloc: Global, count: u64) -> Result<Vec<bool>> {
    let mut all = Vec::new(alloc);
    for _ in 0..count {
        all.push(false)?;
    }
    Ok(all)
}

/// Sets a number's flag. Returns false if there is no such number or its flag was set before.
fn is_told_once(all: &mut Vec<bool>, number: u64) -> bool {
    let Some(place) = number.checked_sub(1) else {
        return false;
    };
    match all.get_mut(place as usize) {
        Some(is_told) if !*is_told => {
            *is_told = true;
            true
        }
        _ => false,
    }
}

impl Owners {
    fn new(alloc: Global, listing: &Listing) -> Result<Owners> {
        let actions = nobody(alloc, listing.action_count())?;
        let members = nobody(alloc, listing.member_count())?;
        Ok(Owners { actions, members })
    }
}

/// Checks that a member's answered join is in the journal, and so is its answered leave.
fn check_join(
    listing: &Listing,
    owners: &mut Owners,
    member: &Member,
    number: u64,
    action: u64,
) -> Result<()> {
    ensure!(
        is_told_once(&mut owners.members, number),
        "member {number} isn't in the journal, or is two members"
    );
    let listed = listing.member(number).context("no such member")?;
    ensure!(
        listed.action == action,
        "member {number} is in another action"
    );
    if member.has_left {
        ensure!(
            listed.status == MemberStatus::Left,
            "member {number} has left, and is {:?}",
            listed.status
        );
    }
    Ok(())
}

/// Returns the action whose number a client was told, and sets the number's flag.
fn find(listing: &Listing, owners: &mut Owners, number: u64) -> Result<ListedAction> {
    ensure!(
        is_told_once(&mut owners.actions, number),
        "action {number} isn't in the journal, or is two actions"
    );
    listing.action(number).context("no such action")
}

/// Counts the end of each action of a journal.
fn count_ends(ends: &mut Ends, listing: &Listing) {
    for place in 0..listing.action_count() {
        if let Some(action) = listing.action(place.saturating_add(1)) {
            ends.count(action.status);
        }
    }
}

/// Counts the bytes, entries, actions and members of a sound journal.
fn count_journal(counts: &mut Counts, text: &[u8], listing: &Listing) {
    add(&mut counts.bytes, text.len());
    add(&mut counts.entries, count_lines(text).saturating_sub(1));
    counts.actions = counts.actions.saturating_add(listing.action_count());
    counts.members = counts.members.saturating_add(listing.member_count());
    count_ends(&mut counts.ends, listing);
}

/// Checks what the members of a client saw.
fn check_members(
    seen: Seen<'_>,
    counts: &mut Counts,
    listing: &Listing,
    owners: &mut Owners,
    client: &Client,
    action: ListedAction,
) -> Result<()> {
    for place in 0..client.members {
        let Some(member) = seen.members.get(client.first.saturating_add(place)) else {
            bail!("there is no such member");
        };
        if let Some(number) = member.number {
            check_join(listing, owners, member, number, action.action)?;
            add_one(&mut counts.joins);
        }
        check_member(member, action.status)?;
    }
    Ok(())
}

/// Checks that an action's parent in the journal is the one that its client asked for, and that their ends fit.
fn check_parent(
    seen: Seen<'_>,
    listing: &Listing,
    client: &Client,
    action: ListedAction,
) -> Result<()> {
    let parent = match client.parent {
        Some(place) => seen.clients.get(place).context("no parent")?.action,
        None => None,
    };
    ensure!(
        action.parent == parent,
        "action {} has another parent than was asked for",
        action.action
    );
    match parent {
        Some(parent) => {
            let parent = listing.action(parent).context("no such parent")?;
            check_nested(action.status, parent.status)
        }
        None => Ok(()),
    }
}

/// Checks what a client was told, and its members.
fn check_client(
    seen: Seen<'_>,
    counts: &mut Counts,
    listing: &Listing,
    owners: &mut Owners,
    place: usize,
) -> Result<()> {
    let client = seen.clients.get(place).context("no client")?;
    let Some(number) = client.action else {
        return Ok(());
    };
    let action = find(listing, owners, number)?;
    add_one(&mut counts.starts);
    check_parent(seen, listing, client, action)?;
    if let Some(finish) = client.ended {
        check_end(client, finish, action.status)?;
        add_one(&mut counts.ended);
    }
    check_members(seen, counts, listing, owners, client, action)
}

/// Checks what the clients at these places were told.
fn check_clients(
    seen: Seen<'_>,
    counts: &mut Counts,
    listing: &Listing,
    owners: &mut Owners,
    places: &[usize],
) -> Result<()> {
    for place in places {
        check_client(seen, counts, listing, owners, *place)?;
    }
    Ok(())
}

/// Audits a site's journal, and checks what its clients and their members saw.
pub fn check_site(alloc: Global, seen: Seen<'_>, counts: &mut Counts, site: &Site) -> Result<()> {
    let listing = listing_of(alloc, site.text())?;
    count_journal(counts, site.text(), &listing);
    let mut owners = Owners::new(alloc, &listing)?;
    let places = site.clients.as_slice();
    let checked = check_clients(seen, counts, &listing, &mut owners, places);
    drop(owners);
    drop(listing);
    checked
}
