//! A reader that says on standard error why lines are refused.

ghost use Rattle.std.specs.Prelude.{◌≡◌};

use std::alloc::Global;
use std::io;
use std::io::{Eprint, Read};
use tg_graph::Graph;
use tg_talk::MOST_LINES;
use tg_wire::{
    LONGEST_LINE, LineKind, WireFault, key_at_fault, read_config, read_goal, read_line, read_step,
};

/// A reader of lines. If it explains them, it reports each one that is refused by itself: its number, from 1, and the
/// field at fault. It leaves out the first lines, which are neither events nor steps, and those after the last one that
/// is taken.
#[derive(Drop)]
pub(crate) struct Explaining<'a, N, R> {
    device: R,
    rt: &'a N,
    alloc: Global,
    /// What the lines are; none once no more are explained.
    kind: Option<LineKind>,
    /// The bytes so far of a line that has not ended, at most one more than a line may have.
    line: Vec<u8>,
    number: u64,
}

impl<'a, N: Eprint, R: Read> Explaining<'a, N, R> {
    /// The device, whose lines of this kind are explained; none are if there is no kind.
    pub(crate) fn new(
        rt: &'a N,
        alloc: Global,
        device: R,
        kind: Option<LineKind>,
    ) -> Explaining<'a, N, R>
        ensures { result.device ≡ device }
    {
        Explaining {
            device,
            rt,
            alloc,
            kind,
            line: Vec::new(alloc),
            number: 1,
        }
    }
}

impl<N: Eprint, R: Read> Read for Explaining<'_, N, R> {
    ghost remaining = { λ e. R.remaining e.device };

    fn read(&mut self, buf: &mut [u8]) -> io::Result<usize> {
        let count = self.device.read(buf)?;
        if let Some(kind) = self.kind {
            let bytes = buf.get(..count).unwrap_or(&[]);
            let goes_on = hear(
                self.rt,
                self.alloc,
                kind,
                &mut self.line,
                &mut self.number,
                bytes,
            );
            if !goes_on {
                self.kind = None;
            }
        }
        Ok(count)
    }
}

/// Explains the lines that end in these bytes, or become too long; none come at the end. Returns whether further lines
/// are taken.
fn hear<N: Eprint>(
    rt: &N,
    alloc: Global,
    kind: LineKind,
    line: &mut Vec<u8>,
    number: &mut u64,
    bytes: &[u8],
) -> bool {
    if bytes.is_empty() && !line.is_empty() {
        return end_line(rt, alloc, kind, line, number);
    }
    for byte in bytes {
        let ends = *byte == b'\n';
        if !ends && line.push(*byte).is_err() {
            return false;
        }
        let is_whole = ends || line.len() > LONGEST_LINE;
        if is_whole && !end_line(rt, alloc, kind, line, number) {
            return false;
        }
    }
    true
}

/// Explains a line, behind which the next one begins. Returns whether further lines are taken.
fn end_line<N: Eprint>(
    rt: &N,
    alloc: Global,
    kind: LineKind,
    line: &mut Vec<u8>,
    number: &mut u64,
) -> bool {
    let goes_on = explain(rt, alloc, kind, line, *number);
    line.clear();
    *number = number.saturating_add(1);
    goes_on
}

/// Says why a line of this kind is refused, if it is. Returns whether further lines are taken: none are after a line
/// that is too long, nor after a configuration, a goal or a step that is refused.
fn explain<N: Eprint>(rt: &N, alloc: Global, kind: LineKind, line: &[u8], number: u64) -> bool {
    if number > MOST_LINES {
        return false;
    }
    if number == 1 {
        return opens(alloc, line);
    }
    if number == 2 && kind == LineKind::Step {
        return read_goal(alloc, line).is_ok();
    }
    let fault = match kind {
        LineKind::Event => read_line(alloc, line).err(),
        LineKind::Step => read_step(alloc, line).err(),
    };
    let Some(fault) = fault else {
        return true;
    };
    say(rt, alloc, kind, line, number, fault);
    kind == LineKind::Event && fault != WireFault::TooLong
}

/// Whether a configuration line opens a graph.
fn opens(alloc: Global, line: &[u8]) -> bool {
    read_config(alloc, line).is_ok_and(|config| Graph::build(alloc, &config).is_ok())
}

/// Says that a line of this kind has this fault, and in which field. A field that it should not have may have any key.
fn say<N: Eprint>(
    rt: &N,
    alloc: Global,
    kind: LineKind,
    line: &[u8],
    number: u64,
    fault: WireFault,
) {
    let words = words_of(fault);
    match key_at_fault(alloc, kind, line) {
        Some(key) => {
            let key = key.escape_debug();
            let _ = eprintln!(rt; "line {number}: {words} {key}");
        }
        None => {
            let _ = eprintln!(rt; "line {number}: {words}");
        }
    }
}

/// What a fault means, in words before the key of its field.
fn words_of(fault: WireFault) -> &'static str {
    match fault {
        WireFault::NotJson => "not one JSON value in UTF-8",
        WireFault::NotObject => "not an object",
        WireFault::NoOp => "unknown or missing op",
        WireFault::MissingField => "missing field",
        WireFault::BadField => "bad value in the field",
        WireFault::UnknownField => "this op has no field",
        WireFault::TooLong => "more than 16384 bytes",
        WireFault::OutOfMemory => "no memory to read it",
    }
}
