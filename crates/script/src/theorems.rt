ghost use Rattle.script.specs.Readings.{OneThingComesNext, RecordsReadBack};

// What comes next in a script is one thing, and the bytes of a record read as that record.
pub fn readings_stand()
    ensures single { OneThingComesNext }
    ensures back { RecordsReadBack }
{}
