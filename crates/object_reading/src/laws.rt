//! What is written is read.

ghost use Rattle.object_reading.specs.Reading.{WrittenIsRead};

/// The bytes of a canonical object's file are that object.
pub fn written_is_read()
    ensures { WrittenIsRead }
{}
