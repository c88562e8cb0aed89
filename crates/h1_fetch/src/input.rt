//! The script as it is read from a source.
ghost use Rattle.std.specs.Prelude.{◌≡◌, ◌+◌, ◌<◌, ◌≤◌, length, IfOk, IfErr};
ghost use Rattle.h1_fetch.specs.Input.{ReadsScript, ReadsPiece, InputCause};

use h1_link::{Source, SourceStep};
use h1_words::MAX_SCRIPT;
use std::alloc::Global;

/// How many bytes one read may give.
const PIECE: usize = 4096;

/// Why a script isn't read.
#[derive(Clone, Copy, Debug, PartialEq, Eq)]
pub(crate) enum InputFault {
    Failed,
    NoMemory,
}

/// Whether more may come.
#[derive(Clone, Copy, Debug, PartialEq, Eq)]
pub(crate) enum Piece {
    More,
    End,
}

/// The bytes of a source, to its end or to the first byte beyond the limit of a script.
pub(crate) fn read_script<S: Source>(alloc: Global, source: &mut S) -> Result<Vec<u8>, InputFault>
    ensures ok { IfOk result
        (λ bytes. ReadsScript (S.state source.old) (S.state source.new) bytes.items) }
    ensures err { IfErr result (InputCause (S.state source.old) (S.state source.new)) }
{
    let mut bytes = Vec::new(alloc);
    let mut buffer = [0u8; PIECE];
    while bytes.len() <= MAX_SCRIPT {
        let room = PIECE.min(MAX_SCRIPT + 1 - bytes.len());
        match read_piece(source, &mut buffer[..room], &mut bytes)? {
            Piece::More => {}
            Piece::End => return Ok(bytes),
        }
    }
    Ok(bytes)
}

/// Reads once, and adds what was given.
fn read_piece<S: Source>(
    source: &mut S,
    buffer: &mut [u8],
    bytes: &mut Vec<u8>,
) -> Result<Piece, InputFault>
    requires { 0 < length buffer.old }
    ensures ok { IfOk result
        (λ piece. ReadsPiece (S.state source.old)
        (S.state source.new) bytes.old.items bytes.new.items (length buffer.old) piece) }
    ensures err { IfErr result (InputCause (S.state source.old) (S.state source.new)) }
{
    match source.read(buffer) {
        SourceStep::Got(count) => {
            if count == 0 {
                return Ok(Piece::End);
            }
            match bytes.extend_from_slice(&buffer[..count]) {
                Ok(()) => Ok(Piece::More),
                Err(_) => Err(InputFault::NoMemory),
            }
        }
        SourceStep::End => Ok(Piece::End),
        SourceStep::Failed => Err(InputFault::Failed),
    }
}
