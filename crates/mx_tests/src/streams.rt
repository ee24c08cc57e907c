//! Sources and sinks: what each read and write gives, ended by `;`.

use crate::said::is;
use mx_outside::{
    MemSink, MemSource, Sink, Source, SureSink, SureSource, WriteFailure, write_whole,
};
use mx_print::append::push;
use std::alloc::AllocError;
use std::test::Fail;

fn push_read<S: Source>(
    out: &mut Vec<u8>,
    source: &mut S,
    buffer: &mut [u8],
) -> Result<(), AllocError> {
    match source.read(buffer) {
        Ok(count) => push(out, buffer.get(..count).unwrap_or(b"past the buffer"))?,
        Err(_) => push(out, b"failed")?,
    }
    push(out, b";")
}

fn push_reads<S: Source>(
    out: &mut Vec<u8>,
    source: &mut S,
    buffer: &mut [u8],
    calls: usize,
) -> Result<(), AllocError> {
    for _ in 0..calls {
        push_read(out, source, buffer)?;
    }
    Ok(())
}

#[test]
fn a_source_gives_its_bytes_and_then_its_end(rt: HostRuntime) -> Result<(), Fail> {
    let mut source = SureSource::new(b"premium".to_vec(rt.alloc())?);
    let mut out = Vec::new(rt.alloc());
    push_reads(&mut out, &mut source, &mut [0u8; 4], 3)?;
    is(&rt, &out, "prem;ium;;");
    Ok(())
}

#[test]
fn a_source_fails_at_the_named_calls_and_takes_nothing(rt: HostRuntime) -> Result<(), Fail> {
    let fails = vec![in rt.alloc(); 2u64, 3]?;
    let mut source = MemSource::new(b"claim".to_vec(rt.alloc())?, fails);
    let mut out = Vec::new(rt.alloc());
    push_reads(&mut out, &mut source, &mut [0u8; 3], 4)?;
    is(&rt, &out, "cla;failed;failed;im;");
    Ok(())
}

fn push_write<K: Sink>(out: &mut Vec<u8>, sink: &mut K, piece: &[u8]) -> Result<(), AllocError> {
    match write_whole(sink, piece) {
        Ok(()) => push(out, b"taken;"),
        Err(WriteFailure::Failed) => push(out, b"failed;"),
        Err(WriteFailure::NoMemory) => Err(AllocError),
    }
}

fn push_writes<K: Sink>(
    out: &mut Vec<u8>,
    sink: &mut K,
    pieces: &[&[u8]],
) -> Result<(), AllocError> {
    for piece in pieces {
        push_write(out, sink, piece)?;
    }
    Ok(())
}

const PIECES: [&[u8]; 3] = [b"ok\n", b"lost\n", b"full\n"];

#[test]
fn a_sink_keeps_what_it_took_before_and_after_a_fault(rt: HostRuntime) -> Result<(), Fail> {
    let mut sink = MemSink::new(rt.alloc(), vec![in rt.alloc(); 2u64]?);
    let mut out = Vec::new(rt.alloc());
    push_writes(&mut out, &mut sink, &PIECES)?;
    is(&rt, &out, "taken;failed;taken;");
    is(&rt, sink.bytes(), "ok\nfull\n");
    Ok(())
}

#[test]
fn a_sure_sink_takes_all(rt: HostRuntime) -> Result<(), Fail> {
    let mut sink = SureSink::new(rt.alloc());
    let mut out = Vec::new(rt.alloc());
    push_writes(&mut out, &mut sink, &[b"ok\n"])?;
    is(&rt, &out, "taken;");
    is(&rt, sink.bytes(), "ok\n");
    Ok(())
}

/// A sink that takes one byte at a time.
#[derive(Drop)]
struct OneByOne {
    bytes: Vec<u8>,
}

impl Sink for OneByOne {
    ghost use Rattle.std.specs.Prelude.{Some};

    ghost taken = { λ s. Some s.bytes.items };

    ghost faults = { λ _. 0 };

    fn write(&mut self, piece: &[u8]) -> Result<usize, WriteFailure> {
        let Some(first) = piece.first() else {
            return Ok(0);
        };
        match self.bytes.push(*first) {
            Ok(()) => Ok(1),
            Err(_) => Err(WriteFailure::NoMemory),
        }
    }
}

/// The blocks of a transcript.
const BLOCKS: [&[u8]; 6] = [
    b"= 7 runs 2\n",
    b"ok\n",
    b"= 832040 runs 31\n",
    b"= 832040 runs 0\n",
    b"ok\n",
    b"= 1346269 runs 30\n",
];

#[test]
fn a_sink_that_takes_part_of_a_piece_is_given_the_rest(rt: HostRuntime) -> Result<(), Fail> {
    let mut sink = OneByOne {
        bytes: Vec::new(rt.alloc()),
    };
    let mut out = Vec::new(rt.alloc());
    push_writes(&mut out, &mut sink, &BLOCKS)?;
    is(&rt, &out, "taken;taken;taken;taken;taken;taken;");
    is(
        &rt,
        &sink.bytes,
        "= 7 runs 2\nok\n= 832040 runs 31\n= 832040 runs 0\nok\n= 1346269 runs 30\n",
    );
    Ok(())
}
