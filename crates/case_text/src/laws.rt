// What holds of every case and of every text, on the contracts of functions.
ghost use Rattle.case_text.specs.Laws.{OneReadingBack, OneSaying, OneStop, NeverSaidAndStopped};

// Bytes are read back as one list of items at most.
pub fn bytes_say_one_thing()
    ensures { OneReadingBack }
{}

// The lines of a text say one list of items at most, or it has one first bad line at most, and never both.
pub fn texts_have_one_answer()
    ensures items { OneSaying }
    ensures line { OneStop }
    ensures apart { NeverSaidAndStopped }
{}
