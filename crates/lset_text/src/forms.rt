ghost use Rattle.lset_text.specs.Forms.{FormsReadBack};

/// Lemma: reading inverts writing for every form of line (a list of fields). Reading a line yields values if and only
/// if the version of the file format can spell these values and the line is their spelling.
pub fn forms_read_back()
    ensures { FormsReadBack }
{}
