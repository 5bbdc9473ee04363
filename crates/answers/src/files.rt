//! What a file that isn't taken in answers.
ghost use Rattle.std.specs.Prelude.{◌≡◌};
ghost use Rattle.answers.specs.Files.{file_answer};

use crate::answer::Answer;
use object_files::LoadError;

/// What is answered where the load of some files stopped so.
pub fn file_answer(why: LoadError) -> Answer
    ensures { result ≡ file_answer why }
{
    match why {
        LoadError::Fault(file) => Answer::FileFault(file),
        LoadError::TooLong(file) => Answer::TooLong(file),
        LoadError::Refused(file, why) => Answer::ObjectRefused(file, why),
        LoadError::NoMemory => Answer::NoMemory,
    }
}
