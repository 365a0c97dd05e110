//! What the words of the command line ask, by example.

ghost use Rattle.resh_run.specs.Words.{FormsAreRead};

/// Each form of the table is read as that form, and words beside them as none.
pub fn forms_are_read()
    ensures { FormsAreRead }
{}
