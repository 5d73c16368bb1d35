//! Errors that say nothing of a file.

ghost use Rattle.std.specs.Prelude.{◌≡◌, ◌≢◌, ◌⊎◌, IsTrue, false};
ghost use Rattle.pdb_base.specs.Answer.{IsOtherFault};

use pdb_base::Error;
use std::io::ErrorKind;

/// Returns whether an error comes from outside the file that is read: whether an allocation failed,
/// or the source did otherwise than by the end of its bytes. Any other error says what is wrong in
/// the file.
pub fn comes_from_outside(error: &Error) -> bool
    ensures outside { IsTrue result → (error.now ≡ Error.OutOfMemory) ⊎ IsOtherFault error.now }
    ensures inside { result ≡ false → (error.now ≢ Error.OutOfMemory) × ¬ IsOtherFault error.now }
{
    match error {
        Error::OutOfMemory => true,
        Error::IoError(cause) => {
            !matches!(
                cause.kind(),
                ErrorKind::UnexpectedEof | ErrorKind::OutOfMemory
            )
        }
        _ => false,
    }
}
