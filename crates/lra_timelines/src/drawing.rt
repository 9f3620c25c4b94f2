//! Picture of an action's timeline: a self-contained SVG document. The lines of the timeline may have addresses, and
//! are escaped.

ghost use Rattle.std.specs.Prelude.{◌≡◌, ◌+◌, ◌++◌, ◌∷◌, [], ℕ, List, IfOk, OnOk, map, string_bytes};
ghost use Rattle.std.specs.List.{flat_map};
ghost use Rattle.lra_model.specs.History.{History};
ghost use Rattle.lra_laws.specs.Snapshots.{StandsFor};
ghost use Rattle.lra_escape.specs.Escapes.{escaped};
ghost use Rattle.lra_timelines.specs.Drawn as drawn;
ghost use Rattle.lra_timelines.specs.Sentences.{told_line as told_words};
ghost use Rattle.lra_timelines.specs.inner.Draws.{Draws};

use crate::sentences::told_line;
use crate::timeline_items::{TimelineItem, Told};
use crate::times::moment_text;
use lra_escape::escape;
use lra_model::{ActionStatus, Memory};
use lra_rows::Rows;
use std::alloc::{AllocError, Global};

/// Style sheet of the picture, for light and dark colour schemes.
const LOOKS: &str = "<style>
svg{background:#fbfbf9}text{font:13px ui-monospace,monospace;fill:#1c2430}.moment{fill:#5b6675}.head{font-weight:600}
circle,rect,path{fill:currentColor}line{stroke:currentColor;stroke-width:3}.lane{fill:none;stroke:#d9dde3}
.asked,.accepted,.silent{fill:none;stroke:currentColor;stroke-width:2}
.Active{color:#1a5fb4}.Closing,.Cancelling,.asked,.accepted{color:#9a5b00}.Closed,.joined,.skipped,.done{color:#1f6f43}
.Cancelled,.left{color:#5b6675}.FailedToClose,.FailedToCancel,.failed,.silent{color:#b3261e}
@media(prefers-color-scheme:dark){svg{background:#14171c}text{fill:#e4e7ec}.moment{fill:#98a2b1}.lane{stroke:#333b47}
.Active{color:#8ab4f8}.Closing,.Cancelling,.asked,.accepted{color:#e8b45a}.Closed,.joined,.skipped,.done{color:#6fcf97}
.Cancelled,.left{color:#98a2b1}.FailedToClose,.FailedToCancel,.failed,.silent{color:#ff8a80}}
</style>
";

/// Returns the vertical position at which the row of a number begins.
fn top_of(number: u64) -> Result<u64, Memory>
    ensures { IfOk result (λ top. top ≡ drawn.top_of number) }
{
    match number.checked_mul(26) {
        Some(top) => Ok(top),
        None => Err(AllocError),
    }
}

/// Returns the number of rows with one more.
fn next_of(count: u64) -> Result<u64, Memory>
    ensures { IfOk result (λ next. next ≡ count + 1) }
{
    match count.checked_add(1) {
        Some(next) => Ok(next),
        None => Err(AllocError),
    }
}

/// Returns the row of a number, with its content.
fn row_text(alloc: Global, number: u64, content: &str) -> Result<String, Memory>
    ensures { IfOk result (λ text. string_bytes text ≡ drawn.row number content.now) }
{
    let top = top_of(number)?;
    format!(in alloc; "<g transform=\"translate(0,{top})\">{content}</g>\n")
}

/// Returns a mark in the action's lane.
fn action_mark(alloc: Global, status: ActionStatus) -> Result<String, Memory>
    ensures { IfOk result (λ text. string_bytes text ≡ drawn.action_mark status) }
{
    let look = status.name();
    format!(in alloc; "<circle cx=\"28\" cy=\"13\" r=\"7\" class=\"{look}\"/>")
}

/// Returns a mark in the members' lane.
fn member_mark(alloc: Global, look: &str) -> Result<String, Memory>
    ensures { IfOk result (λ text. string_bytes text ≡ drawn.member_mark look.now) }
{
    format!(in alloc; "<rect x=\"50\" y=\"7\" width=\"12\" height=\"12\" class=\"{look}\"/>")
}

/// Returns a mark in the lane of the nested actions.
fn nested_mark(alloc: Global, status: ActionStatus) -> Result<String, Memory>
    ensures { IfOk result (λ text. string_bytes text ≡ drawn.nested_mark status) }
{
    let look = status.name();
    format!(in alloc; "<path d=\"M84 5l8 8l-8 8l-8-8z\" class=\"{look}\"/>")
}

/// Returns the mark of a timeline item after which the action has this status.
fn mark(alloc: Global, status: ActionStatus, timeline_item: TimelineItem) -> Result<String, Memory>
    ensures { IfOk result (λ text. string_bytes text ≡ drawn.mark status timeline_item) }
{
    match timeline_item {
        TimelineItem::Started { .. } => action_mark(alloc, status),
        TimelineItem::Joined { .. } => member_mark(alloc, "joined"),
        TimelineItem::Left { .. } => member_mark(alloc, "left"),
        TimelineItem::Closes { .. } => action_mark(alloc, status),
        TimelineItem::Cancels { .. } => action_mark(alloc, status),
        TimelineItem::Skipped { .. } => member_mark(alloc, "skipped"),
        TimelineItem::Asked { .. } => member_mark(alloc, "asked"),
        TimelineItem::Answered { outcome, .. } => member_mark(alloc, outcome.name()),
        TimelineItem::Reported { outcome, .. } => member_mark(alloc, outcome.name()),
        TimelineItem::Ended => action_mark(alloc, status),
        TimelineItem::Restarted => action_mark(alloc, status),
        TimelineItem::Renewed { .. } => action_mark(alloc, status),
        TimelineItem::NestedStarted { .. } => nested_mark(alloc, ActionStatus::Active),
        TimelineItem::NestedCloses { .. } => nested_mark(alloc, ActionStatus::Closing),
        TimelineItem::NestedCancels { .. } => nested_mark(alloc, ActionStatus::Cancelling),
        TimelineItem::NestedEnded { status, .. } => nested_mark(alloc, status),
    }
}

/// Returns the action's lane from a row to the next one.
fn stretch(alloc: Global, status: ActionStatus) -> Result<String, Memory>
    ensures { IfOk result (λ text. string_bytes text ≡ drawn.stretch status) }
{
    let look = status.name();
    format!(in alloc; "<line x1=\"28\" y1=\"13\" x2=\"28\" y2=\"39\" class=\"{look}\"/>")
}

/// Returns the text element of a moment.
fn moment_words(alloc: Global, moment: u64) -> Result<String, Memory>
    ensures { IfOk result (λ text. string_bytes text ≡ drawn.moment_words moment) }
{
    let moment = moment_text(alloc, moment)?;
    format!(in alloc; "<text x=\"112\" y=\"18\" class=\"moment\">{moment}</text>")
}

/// Escapes a text for XML.
fn escaped(alloc: Global, text: &str) -> Result<String, Memory>
    ensures { IfOk result (λ spelled. string_bytes spelled ≡ escaped text.now) }
{
    let mut bytes = Vec::new(alloc);
    escape(&mut bytes, text)?;
    match String::from_utf8(bytes) {
        Ok(spelled) => Ok(spelled),
        Err(_) => Err(AllocError),
    }
}

/// Returns the text element of a line of the timeline.
fn words(alloc: Global, line: &str) -> Result<String, Memory>
    ensures { IfOk result (λ text. string_bytes text ≡ drawn.words line.now) }
{
    let line = escaped(alloc, line)?;
    format!(in alloc; "<text x=\"328\" y=\"18\">{line}</text>")
}

/// Returns the text element of a timeline item.
fn told_words(alloc: Global, rows: &Rows, told: &Told) -> Result<String, Memory>
    ensures { (J : History) → StandsFor rows.now.snapshot J → IfOk result
        (λ text. string_bytes text ≡ drawn.words (told_words J told.now)) }
{
    let line = told_line(alloc, rows, told)?;
    words(alloc, &line)
}

/// Returns the content of the first row.
fn head_row(alloc: Global, head: &str) -> Result<String, Memory>
    ensures { IfOk result (λ text. string_bytes text ≡ drawn.head_row head.now) }
{
    format!(in alloc; "<text x=\"20\" y=\"18\" class=\"head\">{head}</text>")
}

/// Returns the content of the row of a timeline item.
fn told_row(alloc: Global, rows: &Rows, told: &Told) -> Result<String, Memory>
    ensures { (J : History) → StandsFor rows.now.snapshot J → IfOk result
        (λ text. string_bytes text ≡ drawn.told_row J told.now) }
{
    let stretch = stretch(alloc, told.status)?;
    let mark = mark(alloc, told.status, told.timeline_item)?;
    let moment = moment_words(alloc, told.moment)?;
    let words = told_words(alloc, rows, told)?;
    format!(in alloc; "{stretch}{mark}{moment}{words}")
}

/// Rows that are drawn, one below the other.
#[derive(Drop)]
struct Drawing {
    alloc: Global,
    text: String,
    count: u64,
}

impl Drawing {
    /// Makes a drawing without rows.
    fn new(alloc: Global) -> Drawing
        ensures { Draws result [] }
    {
        Drawing {
            alloc,
            text: String::new(alloc),
            count: 0,
        }
    }

    /// Adds a row.
    fn put_row(&mut self, content: &str) -> Result<(), Memory>
        ensures { (cs : List (List ℕ)) → Draws self.old cs → OnOk result (Draws self.new (cs ++ content.now ∷ [])) }
    {
        let row = row_text(self.alloc, self.count, content)?;
        let count = next_of(self.count)?;
        self.text.push_str(&row)?;
        self.count = count;
        Ok(())
    }

    /// Adds the row of a note, unless the note is empty.
    fn put_note(&mut self, note: &str) -> Result<(), Memory>
        ensures { (cs : List (List ℕ)) → Draws self.old cs → OnOk result
            (Draws self.new (cs ++ drawn.note_rows note.now)) }
    {
        if note.is_empty() {
            return Ok(());
        }
        let words = words(self.alloc, note)?;
        self.put_row(&words)
    }
}

/// Adds the row of each timeline item.
fn put_told(drawing: &mut Drawing, rows: &Rows, told: &[Told]) -> Result<(), Memory>
    ensures { (J : History) (cs : List (List ℕ)) → StandsFor rows.now.snapshot J → Draws drawing.old cs
        → OnOk result (Draws drawing.new (cs ++ map (drawn.told_row J) told.now)) }
{
    for place in 0..told.len() {
        let content = told_row(drawing.alloc, rows, &told[place])?;
        drawing.put_row(&content)?;
    }
    Ok(())
}

/// Adds the row of each note that isn't empty.
fn put_notes(drawing: &mut Drawing, notes: &[String]) -> Result<(), Memory>
    ensures { (cs : List (List ℕ)) → Draws drawing.old cs → OnOk result
        (Draws drawing.new (cs ++ flat_map drawn.note_rows (map string_bytes notes.now))) }
{
    for place in 0..notes.len() {
        drawing.put_note(&notes[place])?;
    }
    Ok(())
}

/// Returns the opening of the picture, with its size and its title.
fn opening(alloc: Global, head: &str, height: u64) -> Result<String, Memory>
    ensures { IfOk result (λ text. string_bytes text ≡ drawn.opening head.now height) }
{
    format!(in alloc;
        "<svg xmlns=\"http://www.w3.org/2000/svg\" version=\"1.1\" role=\"graphics-document document\" width=\"1600\" height=\"{height}\" viewBox=\"0 0 1600 {height}\">\n<title>{head}</title>\n"
    )
}

/// Returns the lanes of the members and of the nested actions.
fn lanes(alloc: Global, height: u64) -> Result<String, Memory>
    ensures { IfOk result (λ text. string_bytes text ≡ drawn.lanes height) }
{
    format!(in alloc; "<path class=\"lane\" d=\"M56 26V{height}M84 26V{height}\"/>\n")
}

/// Returns the picture of the rows that are drawn.
fn framed(drawing: &Drawing, head: &str) -> Result<String, Memory>
    ensures { (cs : List (List ℕ)) → Draws drawing.now cs → IfOk result
        (λ text. string_bytes text ≡ drawn.framed head.now cs) }
{
    let height = top_of(drawing.count)?;
    let opening = opening(drawing.alloc, head, height)?;
    let lanes = lanes(drawing.alloc, height)?;
    let rows = drawing.text.as_str();
    format!(in drawing.alloc; "{opening}{LOOKS}{lanes}{rows}</svg>\n")
}

/// Draws a timeline: the head line with the action's status, the items, and the notes.
pub(crate) fn draw(
    alloc: Global,
    rows: &Rows,
    head: &str,
    told: &[Told],
    notes: &[String],
) -> Result<String, Memory>
    ensures { (J : History) → StandsFor rows.now.snapshot J → IfOk result
        (λ text. string_bytes text ≡ drawn.picture J head.now told.now (map string_bytes notes.now)) }
{
    let mut drawing = Drawing::new(alloc);
    let first = head_row(alloc, head)?;
    drawing.put_row(&first)?;
    put_told(&mut drawing, rows, told)?;
    put_notes(&mut drawing, notes)?;
    framed(&drawing, head)
}
