//! The replies of operations that give no order.

ghost use Rattle.std.specs.Prelude.{◌≡◌, true, [], ◌∷◌, IfSome, IfOk};
ghost use Rattle.lra_ids.specs.Identifiers.{id_text, IsSpelling};
ghost use Rattle.lra_front.specs.Listed.{has_code};
ghost use Rattle.lra_operators.specs.Routes.{path_in as path_of, id_in as id_of};

use crate::forms::in_form;
use crate::memo::{Counted, Memo};
use crate::reply::{Kind, Reply};
use crate::route::{id_in, path_in, query_in};
use http::StatusCode;
use lra_commands::{Listing, Query, Refusal};
use lra_ids::{Instance, read_id};
use lra_model::{ActionStatus, Memory};
use lra_overview::{
    Answered, Counts, Facts, Forms, Home, Line, Listed, Names, Node, Overview, Probe, Shown,
    Trouble, Waiting, all_waiting, is_up, lines_of, list_actions, list_unended, members_in,
    put_action, put_action_page, put_actions, put_health, put_home, put_metrics, show_action,
    tree_of,
};
use std::alloc::Global;

/// Number of actions that a page usually has, and the largest number.
const USUAL: u64 = 100;

const MOST: u64 = 1_000;

/// Returns the first journal.
pub(crate) fn first_of<O: Overview>(overview: &O) -> Result<Instance, Trouble> {
    overview.instance(0).ok_or(Trouble::NoSuchJournal)
}

/// Object that an identifier names: the instance of its journal, and its number there.
#[derive(Clone, Copy)]
pub(crate) struct Named {
    pub instance: Instance,
    pub number: u64,
}

/// Finds the object that an identifier names, among the journals that are there.
pub(crate) fn find_named<O: Overview>(overview: &O, id: &str) -> Option<Named>
    ensures { IfSome result (λ found. IsSpelling (id_text found.instance) id.now found.number) }
{
    for place in 0..u64::MAX {
        let instance = overview.instance(place)?;
        if let Some(number) = read_id(id, instance) {
            return Some(Named { instance, number });
        }
    }
    None
}

/// Finds the action that a request's path names.
pub(crate) fn action_named<O: Overview>(overview: &O, target: &str) -> Result<Named, Trouble>
    ensures { IfOk result (λ found. IsSpelling (id_text found.instance) (id_of (path_of target.now)) found.number) }
{
    match find_named(overview, id_in(path_in(target))) {
        Some(found) => Ok(found),
        None => Err(Trouble::Refused(Refusal::NoSuchAction)),
    }
}

/// List of actions that a request asks for.
#[derive(Clone, Copy)]
struct Wanted {
    instance: Instance,
    status: Option<ActionStatus>,
    from: u64,
    most: u64,
    /// Moment at which the request asks for it.
    moment: u64,
}

/// Returns the first field of a query that has a name, decoded, if there is one.
fn text_in(alloc: Global, query: &str, name: &str) -> Result<Option<String>, Trouble> {
    Ok(in_form(alloc, query.as_bytes(), name)?)
}

/// Returns the status that a query names, or nothing. Fails if the word is no status.
fn status_in(alloc: Global, query: &str) -> Result<Option<ActionStatus>, Trouble> {
    let Some(word) = text_in(alloc, query, "state")? else {
        return Ok(None);
    };
    match ActionStatus::from_name(word.as_str().as_bytes()) {
        Some(status) => Ok(Some(status)),
        None => Err(Trouble::Refused(Refusal::BadAddresses)),
    }
}

/// Returns how many rows a query asks for: 1 to `MOST`, and `USUAL` unless it says.
fn most_in(alloc: Global, query: &str) -> Result<u64, Trouble> {
    let Some(word) = text_in(alloc, query, "limit")? else {
        return Ok(USUAL);
    };
    match word.as_str().parse::<u64>() {
        Ok(number) => Ok(number.max(1).min(MOST)),
        Err(_) => Err(Trouble::Refused(Refusal::BadAddresses)),
    }
}

/// Returns the action from which on a query asks for rows, if it names one.
fn from_in<O: Overview>(
    alloc: Global,
    overview: &O,
    query: &str,
) -> Result<Option<Named>, Trouble> {
    let Some(id) = text_in(alloc, query, "from")? else {
        return Ok(None);
    };
    match find_named(overview, id.as_str()) {
        Some(found) => Ok(Some(found)),
        None => Err(Trouble::Refused(Refusal::NoSuchAction)),
    }
}

/// Returns the journal that a query names by its place, if it names one. The oldest has the place 0.
fn journal_in<O: Overview>(
    alloc: Global,
    overview: &O,
    query: &str,
) -> Result<Option<Instance>, Trouble> {
    let Some(word) = text_in(alloc, query, "journal")? else {
        return Ok(None);
    };
    match word.as_str().parse::<u64>() {
        Ok(place) => match overview.instance(place) {
            Some(instance) => Ok(Some(instance)),
            None => Err(Trouble::NoSuchJournal),
        },
        Err(_) => Err(Trouble::Refused(Refusal::BadAddresses)),
    }
}

/// Returns the list that a target asks for. It is of the usual journal unless the target names another.
fn wanted_in<O: Overview>(
    alloc: Global,
    overview: &O,
    usual: Instance,
    target: &str,
) -> Result<Wanted, Trouble> {
    let query = query_in(target);
    let status = status_in(alloc, query)?;
    let most = most_in(alloc, query)?;
    let named = journal_in(alloc, overview, query)?;
    let found = from_in(alloc, overview, query)?;
    let (instance, from) = match found {
        Some(found) => (found.instance, found.number.saturating_sub(1)),
        None => (named.unwrap_or(usual), 0),
    };
    Ok(Wanted {
        instance,
        status,
        from,
        most,
        moment: 0,
    })
}

/// Makes a reply with the code 200 and an empty text, which the caller fills.
fn empty(alloc: Global, kind: Kind) -> Reply
    ensures { has_code result.status (200 ∷ []) ≡ true }
{
    Reply::new(StatusCode::OK, kind, Vec::new(alloc))
}

/// Returns whether there is a journal, and the coordinator of each journal answers.
fn all_answer<O: Overview>(overview: &mut O) -> bool
    ensures { O.orders overview.new ≡ O.orders overview.old }
{
    let query = Query::Count {
        of: Listing::Actions { status: None },
        place: 0,
    };
    for place in 0..u64::MAX {
        let Some(instance) = overview.instance(place) else {
            return place > 0;
        };
        if overview.query(instance, query).is_err() {
            return false;
        }
    }
    false
}

/// Returns how many actions and members there are in the newest journal, if all coordinators answer.
fn answered_in<O: Overview>(
    alloc: Global,
    overview: &mut O,
    memo: &mut Memo,
    moment: u64,
) -> Option<Answered>
    ensures { O.orders overview.new ≡ O.orders overview.old }
{
    if !all_answer(overview) {
        return None;
    }
    let Ok(known) = Memo::look(memo, alloc, overview, moment) else {
        return None;
    };
    let newest = known.newest()?;
    Some(Answered {
        actions: newest.counts.actions,
        members: newest.counts.members,
    })
}

/// Returns the reply that has a service's health, as a probe asks for it.
pub(crate) fn tell_health<O: Overview>(
    alloc: Global,
    overview: &mut O,
    memo: &mut Memo,
    probe: Probe,
) -> Result<Reply, Trouble>
    ensures orders { O.orders overview.new ≡ O.orders overview.old }
    ensures done { IfOk result (λ reply. has_code reply.status (200 ∷ 503 ∷ []) ≡ true) }
{
    let facts = overview.facts();
    let answered = answered_in(alloc, overview, memo, facts.moment);
    let mut reply = empty(alloc, Kind::Json);
    if !is_up(probe, &facts, &answered) {
        reply.status = StatusCode::SERVICE_UNAVAILABLE;
    }
    put_health(&mut reply.text, probe, &facts, &answered)?;
    Ok(reply)
}

/// Adds the measures to a page, from the facts and the counts.
fn put_measures(page: &mut Vec<u8>, facts: &Facts, memo: &Memo) -> Result<(), Trouble> {
    let newest = match memo.newest() {
        Some(counted) => counted.counts,
        None => Counts::none(),
    };
    put_metrics(
        page,
        facts,
        &memo.total(),
        &memo.totals(),
        &newest,
        memo.age(facts.moment),
    )?;
    Ok(())
}

/// Returns the reply that has the metrics.
pub(crate) fn tell_metrics<O: Overview>(
    alloc: Global,
    overview: &mut O,
    memo: &mut Memo,
) -> Result<Reply, Trouble>
    ensures orders { O.orders overview.new ≡ O.orders overview.old }
    ensures done { IfOk result (λ reply. has_code reply.status (200 ∷ []) ≡ true) }
{
    let facts = overview.facts();
    let known = Memo::look(memo, alloc, overview, facts.moment)?;
    let mut reply = empty(alloc, Kind::Metrics);
    put_measures(&mut reply.text, &facts, known)?;
    overview.put_tallies(&mut reply.text)?;
    Ok(reply)
}

/// Returns the reply that has a list of actions.
pub(crate) fn tell_actions<O: Overview>(
    alloc: Global,
    overview: &mut O,
    target: &str,
) -> Result<Reply, Trouble>
    ensures orders { O.orders overview.new ≡ O.orders overview.old }
    ensures done { IfOk result (λ reply. has_code reply.status (200 ∷ []) ≡ true) }
{
    let usual = first_of(overview)?;
    let wanted = wanted_in(alloc, overview, usual, target)?;
    let listed = list_actions(
        alloc,
        overview,
        wanted.instance,
        wanted.status,
        wanted.from,
        wanted.most as usize,
    )?;
    let names = Names::new(alloc, wanted.instance, overview.base());
    let mut reply = empty(alloc, Kind::Json);
    let added = put_actions(&mut reply.text, &names, listed.rows.as_slice(), listed.next);
    drop(listed);
    added?;
    Ok(reply)
}

/// Adds an action with its members to a reply.
fn lay_action(
    reply: &mut Reply,
    names: &Names<'_>,
    shown: &Shown,
    lines: &[Line],
) -> Result<(), Memory>
    ensures { reply.new.status ≡ reply.old.status }
{
    let waiting = Waiting::new(shown.row, shown.awaited);
    put_action(
        &mut reply.text,
        names,
        &waiting,
        lines,
        shown.nested.as_slice(),
        shown.is_cut,
    )
}

/// Returns the reply that has an action with its members.
pub(crate) fn tell_action<O: Overview>(
    alloc: Global,
    overview: &mut O,
    target: &str,
) -> Result<Reply, Trouble>
    ensures orders { O.orders overview.new ≡ O.orders overview.old }
    ensures done { IfOk result (λ reply. has_code reply.status (200 ∷ []) ≡ true) }
{
    let found = action_named(overview, target)?;
    let shown = show_action(alloc, overview, found.instance, found.number)?;
    let told = tell_shown(alloc, overview, found.instance, &shown);
    drop(shown);
    told
}

/// Returns the reply that has an action with its members, and the outcomes of their last callbacks.
fn tell_shown<O: Overview>(
    alloc: Global,
    overview: &mut O,
    instance: Instance,
    shown: &Shown,
) -> Result<Reply, Trouble>
    ensures orders { O.orders overview.new ≡ O.orders overview.old }
    ensures done { IfOk result (λ reply. has_code reply.status (200 ∷ []) ≡ true) }
{
    let moment = overview.facts().moment;
    let lines = lines_of(alloc, overview, instance, shown.members.as_slice(), moment)?;
    let names = Names::new(alloc, instance, overview.base());
    let mut reply = empty(alloc, Kind::Json);
    let added = lay_action(&mut reply, &names, shown, lines.as_slice());
    drop(lines);
    added?;
    Ok(reply)
}

/// Actions of a journal from a place on, with what each waits for, and the action to go on from.
#[derive(Drop)]
struct Hanging {
    waiting: Vec<Waiting>,
    next: Option<u64>,
}

/// Lists the actions of a journal that a request wants: those of a status, or else those that haven't ended. The
/// journal's census says where to find these.
fn list_wanted<O: Overview>(
    alloc: Global,
    overview: &mut O,
    counted: &Counted,
    wanted: Wanted,
) -> Result<Listed, Trouble>
    ensures { O.orders overview.new ≡ O.orders overview.old }
{
    let most = wanted.most as usize;
    let Wanted { instance, from, .. } = wanted;
    match wanted.status {
        Some(_) => list_actions(alloc, overview, instance, wanted.status, from, most),
        None => list_unended(alloc, overview, instance, &counted.census, from, most),
    }
}

/// Returns the actions of a journal that a request wants, with what each waits for.
fn find_hanging<O: Overview>(
    alloc: Global,
    overview: &mut O,
    counted: &Counted,
    wanted: Wanted,
) -> Result<Hanging, Trouble>
    ensures { O.orders overview.new ≡ O.orders overview.old }
{
    let Wanted {
        instance,
        status,
        moment,
        ..
    } = wanted;
    let listed = list_wanted(alloc, overview, counted, wanted)?;
    let next = listed.next;
    let gathered = all_waiting(alloc, overview, instance, listed.rows.as_slice(), moment);
    drop(listed);
    match gathered {
        Ok(waiting) => Ok(hanging_of(counted, status, moment, waiting, next)),
        Err(trouble) => Err(trouble),
    }
}

/// Returns the listed actions. If they haven't ended, adds for how long each has been known of.
fn hanging_of(
    counted: &Counted,
    status: Option<ActionStatus>,
    moment: u64,
    waiting: Vec<Waiting>,
    next: Option<u64>,
) -> Hanging {
    let mut waiting = waiting;
    if is_open(status) {
        counted.add_ages(&mut waiting, moment);
    }
    Hanging { waiting, next }
}

/// Returns whether the wanted actions are ones that haven't ended.
fn is_open(status: Option<ActionStatus>) -> bool {
    matches!(
        status,
        None | Some(ActionStatus::Active | ActionStatus::Closing | ActionStatus::Cancelling)
    )
}

/// Returns the reply that has the first page, from the counts and the actions that were found.
fn lay_home(
    alloc: Global,
    names: &Names<'_>,
    forms: &Forms<'_>,
    total: &Counts,
    state: Option<ActionStatus>,
    found: &Hanging,
) -> Result<Reply, Trouble>
    ensures { IfOk result (λ reply. has_code reply.status (200 ∷ []) ≡ true) }
{
    let mut reply = empty(alloc, Kind::Page);
    let home = Home {
        shares: total.shares.as_slice(),
        overdue: total.overdue,
        state,
        rows: found.waiting.as_slice(),
        next: found.next,
    };
    put_home(&mut reply.text, names, forms, &home)?;
    Ok(reply)
}

/// Returns the reply that has the first page, with actions of one journal.
fn show_journal<O: Overview>(
    alloc: Global,
    overview: &mut O,
    counted: &Counted,
    total: &Counts,
    forms: &Forms<'_>,
    wanted: Wanted,
) -> Result<Reply, Trouble>
    ensures orders { O.orders overview.new ≡ O.orders overview.old }
    ensures done { IfOk result (λ reply. has_code reply.status (200 ∷ []) ≡ true) }
{
    let Wanted {
        instance,
        status,
        ..
    } = wanted;
    let found = find_hanging(alloc, overview, counted, wanted)?;
    let names = Names::new(alloc, instance, overview.base());
    lay_home(alloc, &names, forms, total, status, &found)
}

/// Returns the reply that has the first page, from the counts.
fn show_home<O: Overview>(
    alloc: Global,
    overview: &mut O,
    known: &Memo,
    forms: &Forms<'_>,
    target: &str,
    moment: u64,
) -> Result<Reply, Trouble>
    ensures orders { O.orders overview.new ≡ O.orders overview.old }
    ensures done { IfOk result (λ reply. has_code reply.status (200 ∷ []) ≡ true) }
{
    let total = known.total();
    let first = match status_in(alloc, query_in(target))? {
        Some(status) => known.first_with(status),
        None => known.first_open(),
    };
    let Some(first) = first else {
        return Err(Trouble::NoSuchJournal);
    };
    let wanted = Wanted {
        moment,
        ..wanted_in(alloc, overview, first.instance, target)?
    };
    match known.journal(wanted.instance) {
        Some(counted) => show_journal(alloc, overview, counted, &total, forms, wanted),
        None => Err(Trouble::NoSuchJournal),
    }
}

/// Returns the reply that has the first page: what hasn't ended, the oldest first. Unless the target names another
/// journal, the page is of the first one that has such actions.
pub(crate) fn tell_home<O: Overview>(
    alloc: Global,
    overview: &mut O,
    memo: &mut Memo,
    forms: &Forms<'_>,
    target: &str,
) -> Result<Reply, Trouble>
    ensures orders { O.orders overview.new ≡ O.orders overview.old }
    ensures done { IfOk result (λ reply. has_code reply.status (200 ∷ []) ≡ true) }
{
    let moment = overview.facts().moment;
    let known = Memo::look(memo, alloc, overview, moment)?;
    show_home(alloc, overview, known, forms, target, moment)
}

/// Returns the reply that has an action's page, from its tree and its members' lines.
fn lay_tree(
    alloc: Global,
    names: &Names<'_>,
    forms: &Forms<'_>,
    row: &Waiting,
    nodes: &[Node],
    lines: &[Line],
) -> Result<Reply, Trouble>
    ensures { IfOk result (λ reply. has_code reply.status (200 ∷ []) ≡ true) }
{
    let mut reply = empty(alloc, Kind::Page);
    put_action_page(&mut reply.text, names, forms, row, nodes, lines)?;
    Ok(reply)
}

/// Returns the reply that has an action's page.
pub(crate) fn tell_tree<O: Overview>(
    alloc: Global,
    overview: &mut O,
    forms: &Forms<'_>,
    target: &str,
) -> Result<Reply, Trouble>
    ensures orders { O.orders overview.new ≡ O.orders overview.old }
    ensures done { IfOk result (λ reply. has_code reply.status (200 ∷ []) ≡ true) }
{
    let id = id_in(after_first_piece(path_in(target)));
    let found = find_named(overview, id).ok_or(Trouble::Refused(Refusal::NoSuchAction))?;
    let row = show_row(alloc, overview, found.instance, found.number)?;
    let nodes = tree_of(alloc, overview, found.instance, found.number)?;
    show_tree(
        alloc,
        overview,
        forms,
        found.instance,
        &row,
        nodes.as_slice(),
    )
}

/// Returns the reply that has an action's page, with the outcomes of its members' last callbacks.
fn show_tree<O: Overview>(
    alloc: Global,
    overview: &mut O,
    forms: &Forms<'_>,
    instance: Instance,
    row: &Waiting,
    nodes: &[Node],
) -> Result<Reply, Trouble>
    ensures orders { O.orders overview.new ≡ O.orders overview.old }
    ensures done { IfOk result (λ reply. has_code reply.status (200 ∷ []) ≡ true) }
{
    let moment = overview.facts().moment;
    let members = members_in(alloc, nodes)?;
    let gathered = lines_of(alloc, overview, instance, members.as_slice(), moment);
    drop(members);
    let lines = gathered?;
    let names = Names::new(alloc, instance, overview.base());
    lay_tree(alloc, &names, forms, row, nodes, lines.as_slice())
}

/// Returns a path without its first piece.
fn after_first_piece(path: &str) -> &str {
    match path.split_once("/page") {
        Some((_, rest)) => rest,
        None => path,
    }
}

/// Returns an action, and what it waits for.
fn show_row<O: Overview>(
    alloc: Global,
    overview: &mut O,
    instance: Instance,
    action: u64,
) -> Result<Waiting, Trouble>
    ensures { O.orders overview.new ≡ O.orders overview.old }
{
    let shown = show_action(alloc, overview, instance, action)?;
    let waiting = Waiting::new(shown.row, shown.awaited);
    drop(shown);
    Ok(waiting)
}
