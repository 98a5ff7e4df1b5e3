//! Writing bytes to a sink to their end.

ghost use Rattle.std.specs.Prelude.{◌≡◌, ℕ, ◌≤◌, OnOk, OnErr};
ghost use Rattle.std.specs.List.{flat_map};
ghost use Rattle.suite_base.specs.Outside.{HasFault, Wrote, WrotePart};

use crate::outside::{Failed, Sink};

/// Writes all of `bytes`. After `Failed`, which comes only by a counted fault of the sink, a first
/// part of them was written. It takes no memory.
pub fn write_all<S: Sink>(sink: &mut S, bytes: &[u8]) -> Result<(), Failed>
    ensures ok { OnOk result (Wrote (S.written sink.old) bytes.now (S.written sink.new)) }
    ensures part { OnErr result (WrotePart (S.written sink.old) bytes.now (S.written sink.new)) }
    ensures cause { OnErr result (HasFault (S.faults sink.old) (S.faults sink.new)) }
    ensures grows { S.faults sink.old ≤ S.faults sink.new }
{
    let mut done = 0;
    while done < bytes.len() {
        done += sink.write(&bytes[done..])?;
    }
    Ok(())
}

/// Writes the pieces one after the other, as [`write_all`] writes each.
pub fn write_pieces<S: Sink>(sink: &mut S, pieces: &[&[u8]]) -> Result<(), Failed>
    ensures ok { OnOk result (Wrote (S.written sink.old) (flat_map (λ piece. piece.now) pieces.now) (S.written sink.new)) }
    ensures part { OnErr result (WrotePart (S.written sink.old) (flat_map (λ piece. piece.now) pieces.now) (S.written sink.new)) }
    ensures cause { OnErr result (HasFault (S.faults sink.old) (S.faults sink.new)) }
    ensures grows { S.faults sink.old ≤ S.faults sink.new }
{
    for piece in pieces {
        write_all(sink, piece)?;
    }
    Ok(())
}
