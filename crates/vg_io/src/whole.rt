//! Writing a whole piece.
ghost use Rattle.vg_io.specs.Sinks.{WritesAll};

use crate::sink::Sink;
use crate::source::Failed;

/// Writes the whole piece, in as many writes as the sink wants.
pub fn write_all<K: Sink>(sink: &mut K, piece: &[u8]) -> Result<(), Failed>
    ensures { WritesAll (K.told sink.old) (K.told sink.new) result piece.now }
{
    let mut done = 0;
    while done < piece.len() {
        match sink.write(&piece[done..]) {
            Ok(count) => done += count,
            Err(failed) => return Err(failed),
        }
    }
    Ok(())
}
