//! Texts of different journals differ: what the text of journals is read as are these journals.
ghost use Rattle.std.specs.Prelude.{◌≡◌};
ghost use Rattle.room_wiring.specs.declared.tables.Tables.{Tables};
ghost use Rattle.room_wiring.specs.Consistent.{IsConsistent};
ghost use Rattle.room_wiring.specs.WellNamed.{IsWellNamed};
ghost use Rattle.journal.specs.declared.entry.Journals.{Journals};
ghost use Rattle.journal.specs.Fits.{Fits};
ghost use Rattle.journal.specs.Text.{text_of};
ghost use Rattle.journal_reader.specs.journal_lines.Reading.{journals_in};
ghost use Rattle.tied_journals.specs.Tied.{Tied};
ghost use Rattle.tied_journals.specs.Text.{tied_text_of};
ghost use Rattle.journal_reader.specs.journal_texts.InRange.{IsInRange};

/// The text of journals that fit a wiring whose names tell things apart is read as these journals.
pub fn reads_back()
    ensures { (t : Tables) (j : Journals) → IsConsistent t → IsWellNamed t → Fits t j → IsInRange j
        → journals_in t (text_of t j) ≡ j }
{}

/// Journals that fit a wiring whose names tell things apart, and that have one text, are the same.
pub fn texts_differ()
    ensures { (t : Tables) (i j : Journals)
        → IsConsistent t
        → IsWellNamed t
        → Fits t i
        → IsInRange i
        → Fits t j
        → IsInRange j
        → text_of t i ≡ text_of t j
        → i ≡ j }
{}

/// Tied journals that fit a wiring whose names tell things apart, and that have one text in form 2,
/// are the same.
pub fn tied_texts_differ()
    ensures { (t : Tables) (i j : Journals) → IsConsistent t → IsWellNamed t
        → Fits t i → IsInRange i → Tied i
        → Fits t j → IsInRange j → Tied j → tied_text_of t i ≡ tied_text_of t j → i ≡ j }
{}

/// A text in form 1 is none in form 2.
pub fn forms_differ()
    ensures { (t : Tables) (i j : Journals) → text_of t i ≡ tied_text_of t j → ⊥ }
{}
