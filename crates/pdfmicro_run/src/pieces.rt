//! Writes bytes in pieces.
ghost use Rattle.std.specs.Prelude.{◌≡◌, ◌≤◌, ◌<◌, OnOk, OnErr, take, drop, min, length};
ghost use Rattle.outside_io.specs.Counts.{Rose};
ghost use Rattle.pdfmicro_run.specs.Ran.{Writes, WritesPart};

use outside_io::{Failed, Sink};

/// How many bytes a piece has, the last perhaps excepted.
pub const PIECE: usize = 16_384;

/// Writes the bytes in pieces of 16,384, of which the last may be shorter.
pub fn write_pieces<O: Sink>(out: &mut O, bytes: &[u8]) -> Result<(), Failed>
    ensures calls { (O.state out.old).calls ≤ (O.state out.new).calls }
    ensures faults { (O.state out.old).faults ≤ (O.state out.new).faults }
    ensures ok { OnOk result (Writes bytes.now (O.state out.old) (O.state out.new)) }
    ensures failed { OnErr result (Rose (O.state out.old).faults (O.state out.new).faults) }
    ensures some { OnErr result (0 < length bytes.now) }
    ensures part { OnErr result (WritesPart bytes.now (O.state out.old) (O.state out.new)) }
{
    let mut rest = bytes;
    while !rest.is_empty() {
        let (piece, next) = first_piece(rest);
        // A named arm and not `?`, since a clause speaks of the sink at this error.
        match out.write(piece) {
            Ok(()) => rest = next,
            Err(failed) => return Err(failed),
        }
    }
    Ok(())
}

/// The first piece of the bytes, and the rest.
fn first_piece(bytes: &[u8]) -> (&[u8], &[u8])
    ensures piece { result.0.now ≡ take (min (length bytes.now) PIECE) bytes.now }
    ensures rest { result.1.now ≡ drop (min (length bytes.now) PIECE) bytes.now }
{
    if bytes.len() < PIECE {
        (bytes, &bytes[bytes.len()..])
    } else {
        bytes.split_at(PIECE)
    }
}
