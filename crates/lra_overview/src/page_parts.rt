//! Parts that the pages for a browser share, and a page of one sentence. A page has no script, and loads nothing from
//! another site. `Piece::Told` adds every text from elsewhere, and so escapes it.

ghost use Rattle.std.specs.Prelude.{◌≡◌, ◌++◌, OnOk};
ghost use Rattle.lra_overview.specs.Pages as pages;

use crate::gather::ActionRow;
use crate::names::Names;
use crate::pieces::Piece;
use lra_commands::{Blocker, Want};
use lra_model::{ActionStatus, Memory};

/// Secrets that the port requires of a form.
#[derive(Clone, Copy)]
pub struct Forms<'a> {
    /// Token that shows that a form came from one of these pages.
    pub token: &'a str,
    /// Flag, set if each order has to give a key.
    pub have_key: bool,
}

/// Field of a form for the key.
const KEY: &str =
    "<input type=\"password\" name=\"key\" placeholder=\"key\" aria-label=\"key\" autocomplete=\"new-password\">";

/// Beginning of each page.
const HEAD: &str = "<!DOCTYPE html>\n<html lang=\"en\"><head><meta charset=\"utf-8\">\
<meta name=\"viewport\" content=\"width=device-width,initial-scale=1\"><title>Raxunto</title><style>\n";

/// Styles of a page, in the light scheme.
const LOOKS: &str =
    ":root{color-scheme:light dark;--ink:#1c2430;--dim:#5b6675;--paper:#fbfbf9;--card:#fff;\
--line:#d9dde3;--go:#1f6f43;--wait:#9a5b00;--bad:#b3261e;--link:#1a5fb4}
body{margin:0;background:var(--paper);color:var(--ink);font:15px/1.5 system-ui,sans-serif}
header,main{max-width:70rem;margin:0 auto;padding:1rem 1.5rem}
h1{font-size:1.4rem;margin:0}h2{font-size:1.05rem;margin:1.6rem 0 .6rem}
a{color:var(--link);text-decoration:none}a:hover{text-decoration:underline}
p{color:var(--dim);margin:.4rem 0}
.counts{display:flex;flex-wrap:wrap;gap:.6rem;padding:0;list-style:none}
.counts li{background:var(--card);border:1px solid var(--line);border-radius:.5rem;padding:.5rem .9rem;min-width:6.5rem}
.counts b{display:block;font-size:1.3rem;font-variant-numeric:tabular-nums}
";

/// Styles of tables, forms and pictures.
const TABLES: &str =
    "table{border-collapse:collapse;width:100%;background:var(--card);border:1px solid var(--line)}
th,td{text-align:left;padding:.4rem .7rem;border-bottom:1px solid var(--line);vertical-align:middle}
th{font-weight:600;color:var(--dim);font-size:.85rem}
code,svg text{font:13px ui-monospace,monospace}
form{display:flex;flex-wrap:wrap;gap:.4rem;margin:.4rem 0;align-items:center}
summary{cursor:pointer;color:var(--link)}td code{overflow-wrap:anywhere}
input,button{font:inherit;font-size:.85rem;padding:.15rem .6rem;border:1px solid var(--line);border-radius:.35rem;\
background:var(--paper);color:var(--ink)}
input{width:7rem}button{cursor:pointer}button:hover{border-color:var(--bad);color:var(--bad)}
.Active,.Closing,.Cancelling,.Completing,.Compensating{color:var(--wait)}
.Closed,.Completed{color:var(--go)}.Cancelled,.Compensated,.Left{color:var(--dim)}
.FailedToClose,.FailedToCancel,.FailedToComplete,.FailedToCompensate{color:var(--bad)}
.tree{overflow-x:auto;background:var(--card);border:1px solid var(--line);padding:.5rem}
@media(max-width:48rem){header,main{padding:.8rem}table,tbody,tr,td{display:block}\
thead,td:empty{display:none}td{border:0;padding:.1rem .7rem}tr{border-bottom:1px solid var(--line);padding:.4rem 0}\
td[data-is]:before{content:attr(data-is);color:var(--dim);margin-right:.5rem}}
svg text{fill:var(--ink)}svg circle,svg rect{fill:currentColor}svg .branch{fill:none;stroke:var(--line);stroke-width:2}
";

/// Styles of a page in the dark scheme.
const NIGHT: &str =
    "@media(prefers-color-scheme:dark){:root{--ink:#e4e7ec;--dim:#98a2b1;--paper:#14171c;--card:#1b2027;\
--line:#333b47;--go:#6fcf97;--wait:#e8b45a;--bad:#ff8a80;--link:#8ab4f8}}
</style></head><body><header><h1><a href=\"/\">Raxunto</a></h1>";

/// Adds the beginning of a page, with the coordinator's base.
pub(crate) fn begin(page: &mut Vec<u8>, names: &Names<'_>) -> Result<(), Memory>
    ensures { OnOk result (page.new.items ≡ page.old.items ++ pages.begin names.now.base.now) }
{
    let pieces = [
        Piece::Own(HEAD),
        Piece::Own(LOOKS),
        Piece::Own(TABLES),
        Piece::Own(NIGHT),
        Piece::Own("<p>The coordinator at <code>"),
        Piece::Told(names.base.as_str()),
        Piece::Own("</code></p></header><main>\n"),
    ];
    names.put_all(page, &pieces)
}

/// Adds the fields of a form that the port requires: the token, and a field for the key if one is needed.
pub(crate) fn put_fields(
    page: &mut Vec<u8>,
    names: &Names<'_>,
    token: &str,
    needs_key: bool,
) -> Result<(), Memory>
    ensures { OnOk result (page.new.items ≡ page.old.items ++ pages.fields token.now needs_key) }
{
    if needs_key {
        let pieces = [
            Piece::Own("<input type=\"hidden\" name=\"token\" value=\""),
            Piece::Told(token),
            Piece::Own("\">"),
            Piece::Own(KEY),
        ];
        return names.put_all(page, &pieces);
    }
    let pieces = [
        Piece::Own("<input type=\"hidden\" name=\"token\" value=\""),
        Piece::Told(token),
        Piece::Own("\">"),
    ];
    names.put_all(page, &pieces)
}

/// Adds a form that cancels an action.
fn put_cancel_form(
    page: &mut Vec<u8>,
    names: &Names<'_>,
    forms: &Forms<'_>,
    action: u64,
) -> Result<(), Memory>
    ensures { OnOk result (page.new.items ≡ page.old.items ++ pages.cancel_form names.now.instance forms.now.token.now
        forms.now.have_key action) }
{
    let opening = [
        Piece::Own("<details><summary>Cancel</summary><form method=\"post\" action=\"/actions/"),
        Piece::Id(action),
        Piece::Own("/cancel\">Cancel it, and all that is nested in it?"),
    ];
    names.put_all(page, &opening)?;
    put_fields(page, names, forms.token, forms.have_key)?;
    names.put_all(
        page,
        &[Piece::Own("<button>Yes, cancel</button></form></details>")],
    )
}

/// Adds a form that cancels an action, if the action can be cancelled.
pub(crate) fn put_cancel(
    page: &mut Vec<u8>,
    names: &Names<'_>,
    forms: &Forms<'_>,
    row: ActionRow,
) -> Result<(), Memory>
    ensures { OnOk result (page.new.items ≡ page.old.items ++ pages.cancel names.now.instance forms.now.token.now
        forms.now.have_key row) }
{
    match row.status {
        ActionStatus::Active => put_cancel_form(page, names, forms, row.action),
        _ => Ok(()),
    }
}

/// Adds the member that an action waits for.
fn put_awaited_member(
    page: &mut Vec<u8>,
    names: &Names<'_>,
    member: u64,
    ask: Option<u64>,
) -> Result<(), Memory>
    ensures { OnOk result (page.new.items ≡ page.old.items ++ pages.awaited_member names.now.instance member ask) }
{
    match ask {
        None => {
            let pieces = [
                Piece::Own("member <code>"),
                Piece::Id(member),
                Piece::Own("</code>"),
            ];
            names.put_all(page, &pieces)
        }
        Some(_) => {
            let pieces = [
                Piece::Own("member <code>"),
                Piece::Id(member),
                Piece::Own("</code>, asked"),
            ];
            names.put_all(page, &pieces)
        }
    }
}

/// Adds what an action waits for.
pub(crate) fn put_awaited(
    page: &mut Vec<u8>,
    names: &Names<'_>,
    awaited: &Option<Blocker>,
) -> Result<(), Memory>
    ensures { OnOk result (page.new.items ≡ page.old.items ++ pages.awaited names.now.instance awaited.now) }
{
    match awaited {
        None => names.put_all(page, &[Piece::Own("its end")]),
        Some(Blocker::Action { action }) => {
            let pieces = [
                Piece::Own("action <a href=\"/page/actions/"),
                Piece::Id(*action),
                Piece::Own("\"><code>"),
                Piece::Id(*action),
                Piece::Own("</code></a>"),
            ];
            names.put_all(page, &pieces)
        }
        Some(Blocker::Member { member, ask }) => put_awaited_member(page, names, *member, *ask),
    }
}

/// Adds what a member is to be asked next, at once.
fn put_want_now(page: &mut Vec<u8>, names: &Names<'_>, want: Want) -> Result<(), Memory>
    ensures { OnOk result (page.new.items ≡ page.old.items ++ pages.want_now want) }
{
    let pieces = [
        Piece::Kind(want.kind),
        Piece::Own(" now, in vain "),
        Piece::Number(want.repeats),
        Piece::Own(" times"),
    ];
    names.put_all(page, &pieces)
}

/// Adds what a member is to be asked next, and in how many milliseconds.
fn put_want_in(page: &mut Vec<u8>, names: &Names<'_>, want: Want, left: u64) -> Result<(), Memory>
    ensures { OnOk result (page.new.items ≡ page.old.items ++ pages.want_in want left) }
{
    let pieces = [
        Piece::Kind(want.kind),
        Piece::Own(" in "),
        Piece::Span(left),
        Piece::Own(", in vain "),
        Piece::Number(want.repeats),
        Piece::Own(" times"),
    ];
    names.put_all(page, &pieces)
}

/// Adds what a member is to be asked next, and when.
fn put_want(page: &mut Vec<u8>, names: &Names<'_>, want: Want, left: u64) -> Result<(), Memory>
    ensures { OnOk result (page.new.items ≡ page.old.items ++ pages.want want left) }
{
    if left == 0 {
        put_want_now(page, names, want)
    } else {
        put_want_in(page, names, want, left)
    }
}

/// Adds what a member is being asked, or is to be asked next.
pub(crate) fn put_next_ask(
    page: &mut Vec<u8>,
    names: &Names<'_>,
    ask: Option<u64>,
    want: Option<Want>,
    left: u64,
) -> Result<(), Memory>
    ensures { OnOk result (page.new.items ≡ page.old.items ++ pages.next_ask ask want left) }
{
    match (ask, want) {
        (Some(_), _) => names.put_all(page, &[Piece::Own("is being asked")]),
        (None, Some(want)) => put_want(page, names, want, left),
        (None, None) => Ok(()),
    }
}

/// Adds a page that shows one sentence of this program, and a text from elsewhere.
pub fn put_plain_page(
    page: &mut Vec<u8>,
    names: &Names<'_>,
    sentence: &'static str,
    text: &str,
) -> Result<(), Memory>
    ensures { OnOk result (page.new.items ≡ page.old.items ++ pages.plain names.now.base.now sentence.now text.now) }
{
    begin(page, names)?;
    let pieces = [
        Piece::Own("<h2>"),
        Piece::Own(sentence),
        Piece::Own("</h2>\n<p><code>"),
        Piece::Told(text),
        Piece::Own("</code></p>\n</main></body></html>\n"),
    ];
    names.put_all(page, &pieces)
}
