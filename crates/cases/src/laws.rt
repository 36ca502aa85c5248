// What holds of every case, on the contracts of functions.
ghost use Rattle.cases.specs.Laws.{OneField, OneItem, OneOpening, OneStep, OneReadingPlace, FieldsRead, NamesRead, RulesRead, EntriesRead, TicksRead};

// Bytes begin with one field at most, and a field says one thing at most.
pub fn fields_are_one()
    ensures field { OneField }
    ensures item { OneItem }
{}

// The fields up to the rule have one answer, and so has each field behind it; and reading that asked for some fields stands at one place.
pub fn readings_are_one()
    ensures opening { OneOpening }
    ensures step { OneStep }
    ensures place { OneReadingPlace }
{}

// A field that is put into bytes is read again, with what stands behind it, and says what was put into it.
pub fn packed_fields_are_read()
    ensures field { FieldsRead }
    ensures name { NamesRead }
    ensures rule { RulesRead }
    ensures entry { EntriesRead }
    ensures tick { TicksRead }
{}
