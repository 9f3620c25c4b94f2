//! The laws of pages: public functions that do nothing, whose contracts say what follows from the definitions.

ghost use Rattle.lra_overview.specs.Marks.{
  HomeKeepsMarks,
  ActionKeepsMarks,
  ReplyKeepsMarks,
  PlainKeepsMarks,
  HomeRefers,
  ActionRefers,
  PlainRefers,
};

/// States that the marks of a page, which delimit its markup and quoted values, depend on no text from elsewhere. Each
/// page has the same marks in the same order, whatever the coordinator's base, the forms' token, the address and the
/// words of a member's last callback, and the reported text are.
pub fn pages_keep_marks()
    ensures home { HomeKeepsMarks }
    ensures action { ActionKeepsMarks }
    ensures reply { ReplyKeepsMarks }
    ensures plain { PlainKeepsMarks }
{}

/// States that each `&` of a page begins one of the five references, whatever texts the page has. So no `&` stands
/// bare.
pub fn pages_refer()
    ensures home { HomeRefers }
    ensures action { ActionRefers }
    ensures plain { PlainRefers }
{}
