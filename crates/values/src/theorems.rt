ghost use Rattle.values.specs.Examples.{Box99ReadsAnd100DoesNot, OtherBytesDoNotRead, HighestByteFirst};

// Worked examples of values in bytes.
pub fn examples_hold()
    ensures boxes { Box99ReadsAnd100DoesNot }
    ensures others { OtherBytesDoNotRead }
    ensures order { HighestByteFirst }
{}
