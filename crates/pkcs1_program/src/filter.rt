//! The program as a filter: reading lines and writing the output for each.
ghost use Rattle.std.specs.Prelude.{◌≡◌, ◌<◌, ◌≤◌, ◌⊎◌, ℕ, List, [], length, IfSome, IfOk, OnOk, IsErrOf, vec_len};
ghost use Rattle.std.specs.Io.KnownBytes.{Appends, Keeps, IsAtEnd};
ghost use Rattle.der_core.specs.Words.{piece, AppendsFront, GivesAll, GivesMore, GivesSome, OneFailed, HasAtMostOne};
ghost use Rattle.pkcs1_program.specs.Words.{Answer, Output, lines_of, longest_input, MakesOutput, MakesFirst, WritesOutput, WritesFirst, WritesFront, WritesFrontOfAll, WritesHeld, WritesOut};

use crate::answer::answer_line;
use crate::fault::Fault;
use crate::laws::lemma_answers_are_one;
use crate::lines::split_line;
use crate::request::Encodings;
use der_core::{ErrorKind, Length, Sink, Source, put_all, read_all};
use std::alloc::Global;

/// The longest input, in bytes.
pub const LIMIT: usize = 16777216;

/// How many bytes of output are held before they are written.
const BUFFER: usize = 65536;

/// Reads all that the source gives until its end.
fn read_input<R: Source>(alloc: Global, source: &mut R) -> Result<Vec<u8>, Fault>
    ensures all { IfOk result (λ input. GivesAll (R.remaining source.old) (R.remaining source.new) input.items) }
    ensures within { IfOk result (λ input. vec_len input ≤ longest_input) }
    ensures same { OnOk result (R.failures source.new ≡ R.failures source.old) }
    ensures read { IsErrOf result Fault.Read → OneFailed (R.failures source.old) (R.failures source.new)
        ⊎ GivesMore longest_input piece (R.remaining source.old) (R.remaining source.new) }
    ensures write { ¬ IsErrOf result Fault.Write }
    ensures memory_quiet { IsErrOf result Fault.Memory → R.failures source.new ≡ R.failures source.old }
    ensures wanted { IsErrOf result Fault.Memory
        → GivesSome longest_input (R.remaining source.old) (R.remaining source.new) }
{
    match read_all(alloc, source, Length::of(LIMIT)) {
        Ok(input) => Ok(input),
        Err(error) if error.kind() == ErrorKind::OutOfMemory => Err(Fault::Memory),
        Err(_) => Err(Fault::Read),
    }
}

/// Writes all the bytes, in order.
fn write_out<W: Sink>(bytes: &[u8], sink: &mut W) -> Result<(), Fault>
    ensures { WritesOut bytes.now result (W.contents sink.old) (W.contents sink.new)
        (W.failures sink.old) (W.failures sink.new) }
{
    match put_all(bytes, sink) {
        Ok(()) => Ok(()),
        Err(_) => Err(Fault::Write),
    }
}

/// Writes what is held, if it is long.
fn write_long<W: Sink>(held: &mut Vec<u8>, sink: &mut W) -> Result<(), Fault>
    ensures { WritesHeld held.old.items held.new.items result (W.contents sink.old) (W.contents sink.new)
        (W.failures sink.old) (W.failures sink.new) }
{
    if held.len() < BUFFER {
        return Ok(());
    }
    write_out(held.as_slice(), sink)?;
    held.clear();
    Ok(())
}

/// Writes all the bytes, in order, and flushes the sink.
pub(crate) fn finish<W: Sink>(bytes: &[u8], sink: &mut W) -> Result<(), Fault>
    ensures written { WritesOut bytes.now result (W.contents sink.old) (W.contents sink.new)
        (W.failures sink.old) (W.failures sink.new) }
    ensures flushed { OnOk result (W.is_flushed sink.new) }
{
    write_out(bytes, sink)?;
    match sink.flush() {
        Ok(()) => Ok(()),
        Err(_) => Err(Fault::Write),
    }
}

/// Makes the output for each line, in order. Of it, what is long is written, and the rest is left in `held`.
fn answer_lines<W: Sink>(
    alloc: Global,
    input: &[u8],
    held: &mut Vec<u8>,
    sink: &mut W,
) -> Result<(), Fault>
    requires { held.old.items ≡ [] }
    ensures ok { OnOk result (MakesOutput (W.contents sink.old) (W.contents sink.new) held.new.items
        (lines_of input.now)) }
    ensures same { OnOk result (W.failures sink.new ≡ W.failures sink.old) }
    ensures read { ¬ IsErrOf result Fault.Read }
    ensures write { IsErrOf result Fault.Write → OneFailed (W.failures sink.old) (W.failures sink.new)
        × WritesFront (W.contents sink.old) (W.contents sink.new) (lines_of input.now) }
    ensures memory { IsErrOf result Fault.Memory
        → MakesFirst (W.contents sink.old) (W.contents sink.new) held.new.items (lines_of input.now) }
    ensures memory_quiet { IsErrOf result Fault.Memory → W.failures sink.new ≡ W.failures sink.old }
    ensures wanted { IsErrOf result Fault.Memory → 0 < length input.now }
{
    let mut encodings = Encodings::new(alloc);
    let mut answer = Vec::new(alloc);
    let mut rest = input;
    while !rest.is_empty() {
        let (line, more) = split_line(rest);
        answer.clear();
        answer_line(alloc, line, &mut encodings, &mut answer)?;
        answer.push(b'\n')?;
        held.extend_from_slice(answer.as_slice())?;
        write_long(held, sink)?;
        rest = more;
    }
    Ok(())
}

/// Writes the output for each line, in order, and flushes the sink. If memory runs out, the output for the lines before
/// is written.
fn answer_input<W: Sink>(alloc: Global, input: &[u8], sink: &mut W) -> Result<(), Fault>
    ensures ok { OnOk result (WritesOutput (W.contents sink.old) (W.contents sink.new) (lines_of input.now)) }
    ensures same { OnOk result (W.failures sink.new ≡ W.failures sink.old) }
    ensures read { ¬ IsErrOf result Fault.Read }
    ensures write { IsErrOf result Fault.Write → OneFailed (W.failures sink.old) (W.failures sink.new)
        × WritesFront (W.contents sink.old) (W.contents sink.new) (lines_of input.now) }
    ensures memory { IsErrOf result Fault.Memory
        → WritesFirst (W.contents sink.old) (W.contents sink.new) (lines_of input.now) }
    ensures memory_quiet { IsErrOf result Fault.Memory → W.failures sink.new ≡ W.failures sink.old }
    ensures wanted { IsErrOf result Fault.Memory → 0 < length input.now }
    ensures flushed { OnOk result (W.is_flushed sink.new) }
{
    let mut held = Vec::new(alloc);
    match answer_lines(alloc, input, &mut held, sink) {
        Ok(()) => finish(held.as_slice(), sink),
        Err(Fault::Memory) => {
            write_out(held.as_slice(), sink)?;
            Err(Fault::Memory)
        }
        Err(fault) => Err(fault),
    }
}

/// Reads the whole input, then writes the output for each line, many lines at once. What follows is said of the bytes
/// that source and sink report.
///
/// Ok: the source gave all until its end, at most `LIMIT` bytes, the output for each line was written, in order, the
/// sink is flushed, and no call failed. Of any source there are some bytes, at most `LIMIT`, whose output was written.
/// `Read`: one call of the source failed, or it gave more than `LIMIT`; nothing was written, and no call of the sink
/// failed. `Write`: one call of the sink failed, and a beginning of the output was written. `Memory`: the output for
/// some first lines was written, at least one byte came, and no call failed. A line has at most one output, and so has
/// an input.
pub fn run<R: Source, W: Sink>(alloc: Global, source: &mut R, sink: &mut W) -> Result<(), Fault>
    ensures ok { let writes = WritesOutput (W.contents sink.old) (W.contents sink.new) in
        OnOk result (IfSome (R.remaining source.old) (λ input. writes (lines_of input))) }
    ensures whole { let gives = GivesAll (R.remaining source.old) (R.remaining source.new) in
        OnOk result (IfSome (R.remaining source.old) (λ input. gives input)) }
    ensures some { OnOk result ((input : List ℕ) × (length input ≤ longest_input)
        × GivesAll (R.remaining source.old) (R.remaining source.new) input
        × WritesOutput (W.contents sink.old) (W.contents sink.new) (lines_of input)) }
    ensures within { OnOk result (IfSome (R.remaining source.old) (λ input. length input ≤ longest_input)) }
    ensures quiet { OnOk result ((R.failures source.new ≡ R.failures source.old)
        × (W.failures sink.new ≡ W.failures sink.old)) }
    ensures read { IsErrOf result Fault.Read → OneFailed (R.failures source.old) (R.failures source.new)
        ⊎ GivesMore longest_input piece (R.remaining source.old) (R.remaining source.new) }
    ensures untouched { IsErrOf result Fault.Read
        → Keeps (W.contents sink.old) (W.contents sink.new) × (W.failures sink.new ≡ W.failures sink.old) }
    ensures write { IsErrOf result Fault.Write → OneFailed (W.failures sink.old) (W.failures sink.new) }
    ensures front { let writes = WritesFront (W.contents sink.old) (W.contents sink.new) in
        IsErrOf result Fault.Write → IfSome (R.remaining source.old) (λ input. writes (lines_of input)) }
    ensures front_of_all { let writes = WritesFrontOfAll (W.contents sink.old) (W.contents sink.new) in
        IsErrOf result Fault.Write → IfSome (R.remaining source.old) (λ input. writes (lines_of input)) }
    ensures memory { let writes = WritesFirst (W.contents sink.old) (W.contents sink.new) in
        IsErrOf result Fault.Memory → IfSome (R.remaining source.old) (λ input. writes (lines_of input)) }
    ensures memory_quiet { IsErrOf result Fault.Memory → (R.failures source.new ≡ R.failures source.old)
        × (W.failures sink.new ≡ W.failures sink.old) }
    ensures wanted { IsErrOf result Fault.Memory
        → GivesSome longest_input (R.remaining source.old) (R.remaining source.new) }
    ensures flushed { OnOk result (W.is_flushed sink.new) }
    ensures one_answer { (line : List ℕ) → HasAtMostOne (Answer line) }
    ensures one_output { (input : List ℕ) → HasAtMostOne (Output input) }
{
    lemma_answers_are_one();
    let input = read_input(alloc, source)?;
    answer_input(alloc, input.as_slice(), sink)
}
