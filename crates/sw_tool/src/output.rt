ghost use Rattle.std.specs.Prelude.{map, flat_map};
ghost use Rattle.sw_tool.specs.Output.{Writes, line};

use crate::sink::Sink;
use crate::source::Failed;

/// Writes the whole piece. `Failed`: the sink gained a front of it, and its count rose.
pub fn write_all<K: Sink>(sink: &mut K, piece: &[u8]) -> Result<(), Failed>
    ensures { Writes
        result
        (record { old = K.taken sink.old; new = K.taken sink.new; before = K.faults sink.old; after = K.faults sink.new })
        piece.now }
{
    let mut done = 0;
    while done < piece.len() {
        match sink.write(&piece[done..]) {
            Ok(count) => done += count,
            Err(failed) => return Err(failed),
        }
    }
    Ok(())
}

/// Writes the pieces one after another, in the same way.
fn write_pieces<K: Sink>(sink: &mut K, pieces: &[&[u8]]) -> Result<(), Failed>
    ensures { Writes
        result
        (record { old = K.taken sink.old; new = K.taken sink.new; before = K.faults sink.old; after = K.faults sink.new })
        (flat_map (λ p. p.now) pieces.now) }
{
    for piece in pieces {
        match write_all(sink, piece) {
            Ok(()) => {}
            Err(failed) => return Err(failed),
        }
    }
    Ok(())
}

/// Writes the pieces and a line feed, in the same way. It takes no memory.
pub fn write_line<K: Sink>(sink: &mut K, pieces: &[&[u8]]) -> Result<(), Failed>
    ensures { Writes
        result
        (record { old = K.taken sink.old; new = K.taken sink.new; before = K.faults sink.old; after = K.faults sink.new })
        (line (map (λ p. p.now) pieces.now)) }
{
    match write_pieces(sink, pieces) {
        Ok(()) => write_all(sink, b"\n"),
        Err(failed) => Err(failed),
    }
}
