//! Laws of verdicts, on all bytes.

ghost use Rattle.lra_auditor.specs.OneVerdict.{BytesHaveOneVerdict, LegalTextsAreSound};

/// States that bytes have one verdict at most: they alone decide what `audit` returns, or an `Auditor`, in whatever
/// pieces it was fed.
pub fn bytes_have_one_verdict()
    ensures { BytesHaveOneVerdict }
{}

/// States that the text of a legal history has no verdict but Sound, with the summary: `audit` never refuses it.
pub fn legal_texts_are_sound()
    ensures { LegalTextsAreSound }
{}
