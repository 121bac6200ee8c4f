//! What holds of each stream.

ghost use Rattle.dia_directions.specs.Streams.{AllIsRead, FrontIsRead};

/// The bytes that are read are those of the stream, however it was cut into segments, and in whatever order they came.
pub fn cuts()
    ensures front { FrontIsRead }
    ensures whole { AllIsRead }
{}
