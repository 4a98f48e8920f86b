//! A run over lines.

ghost use Rattle.std.specs.Prelude.{◌≡◌, ◌≢◌, IfSome, IfOk, IfErr, Some};
ghost use Rattle.std.specs.Io.KnownBytes.{prepend_known};
ghost use Rattle.tg_talk.specs.Promise.Devices.{device_of, has_failed, promised};
ghost use Rattle.tg_talk.specs.declared.fault.TalkFault.TheVariants.{OutOfMemory};
ghost use Rattle.tg_talk.specs.Promise.Opening.{OpensVault};
ghost use Rattle.tgdoc.specs.Promise.Drawings.{LinesDrew};
ghost use Rattle.tgdoc.specs.Inner.Outputs.{Told};
ghost use Rattle.tgdoc.specs.Promise.Sharing.{LinesShared};
ghost use Rattle.tgdoc.specs.Promise.Ready.{AreReady, Reports};
ghost use Rattle.tgdoc.specs.Promise.Runs.{InputRan, LinesRan};
ghost use Rattle.tgdoc.specs.Inner.Running.{InputLeft};

use crate::answer::Runner;
use crate::finish::{finish, none_taken};
use crate::pictures::{Artist, end_drawing};
use crate::question::Question;
use crate::sharing::end_sharing;
use std::alloc::{AllocError, Global};
use std::io::{BufWriter, Read, Write};
use std::mem;
use tg_talk::{Finished, InputLines, Next, TalkFault, Watched, answer_lines, open_vault};
use tg_vault::{Key, Vault, courses_have_the_headline, courses_join};
use tg_wire::{Line, WireFault, error_line};

/// What is written for the lines of a run.
#[derive(Clone, Copy)]
pub(crate) enum Output<'q> {
    /// The answer to each.
    Answers,
    /// Pictures of the vault: after each line, or only after the last one.
    Pictures { each: bool },
    /// The answer to a question about the graph, after the last one.
    Sharing { question: &'q Question },
}

/// Reads a configuration line and then event lines, and answers each. Answers to lines that came together are written
/// together, and nothing is held back when more is read, nor at the end. A configuration line that is refused ends the
/// run; an event line that is refused does not. No line at all is read as an empty one, which is not counted. The run
/// ends at the end of the input, at a line of more than 16,384 bytes, at the line after the millionth, or when the
/// reader or the writer fails. If there is no memory for an answer's line, `out of memory` is answered in its place; if
/// there is none for the buffer of 32,768 bytes, no line is read.
pub fn run_lines<R: Read, W: Write + Drop>(
    alloc: Global,
    reader: &mut Watched<R>,
    writer: &mut Watched<BufWriter<W>>,
) -> Finished
    requires { AreReady reader.old writer.old }
    ensures report { Reports R.remaining result reader.old reader.new writer.new }
    ensures ran { IfSome (R.remaining (device_of reader.old))
        (LinesRan result (promised W.contents writer.old) (promised W.contents writer.new) (has_failed writer.new)) }
{
    take_lines(alloc, Output::Answers, reader, writer)
}

/// Carries out lines as `run_lines` does, and draws the vault in place of the answers: after each line, with the line
/// and its answer as the label, a refused one too; or once, after the last line, with how many lines there were, and
/// how many of their answers are `error` lines. If a line ends the run, its answer is written as by `run_lines`; then
/// comes the last picture, unless each line has one. A refused configuration is answered as by `run_lines`, and nothing
/// is drawn. If the reader or the writer fails, nothing more is drawn. If there is no memory for a picture, `out of
/// memory` is written in its place.
pub fn draw_lines<R: Read, W: Write + Drop>(
    alloc: Global,
    each: bool,
    reader: &mut Watched<R>,
    writer: &mut Watched<BufWriter<W>>,
) -> Finished
    requires { AreReady reader.old writer.old }
    ensures report { Reports R.remaining result reader.old reader.new writer.new }
    ensures drew { IfSome (R.remaining (device_of reader.old))
        (LinesDrew each result (promised W.contents writer.old) (promised W.contents writer.new) (has_failed writer.new)) }
{
    take_lines(alloc, Output::Pictures { each }, reader, writer)
}

/// Carries out lines as `run_lines` does, without their answers, and then answers whether rights can ever be shared in
/// the graph to which they led, whatever its subjects do: in the plain graph of all commands that were carried out,
/// from which no vertex is collected. For a yes it writes a derivation for `audit_lines`: the configuration line, the
/// goal, the commands that changed edges, and steps that lead to the goal; or these steps alone, if the question asks
/// for that. A no is `{"verdict":"never"}`. `{"verdict":"no serial"}` says that it would take more new vertices than
/// there are serials left. If a word of the question names no vertex, the answer is `{"error":"no vertex","vertex":N}`
/// or `{"error":"no principal"}`. A refused configuration, and a line that ends the run, are answered as by
/// `run_lines`, and the question is not; nor is it if the reader or the writer fails. If there is no memory for the
/// answer, `out of memory` is written in its place.
pub fn share_lines<R: Read, W: Write + Drop>(
    alloc: Global,
    question: &Question,
    reader: &mut Watched<R>,
    writer: &mut Watched<BufWriter<W>>,
) -> Finished
    requires { AreReady reader.old writer.old }
    ensures report { Reports R.remaining result reader.old reader.new writer.new }
    ensures shared { IfSome (R.remaining (device_of reader.old))
        (LinesShared question.now result (promised W.contents writer.old) (promised W.contents writer.new) (has_failed writer.new)) }
{
    take_lines(alloc, Output::Sharing { question }, reader, writer)
}

/// Reads a configuration line and then event lines, and writes for them what is asked for.
fn take_lines<R: Read, W: Write + Drop>(
    alloc: Global,
    how: Output<'_>,
    reader: &mut Watched<R>,
    writer: &mut Watched<BufWriter<W>>,
) -> Finished
    requires { AreReady reader.old writer.old }
    ensures report { Reports R.remaining result reader.old reader.new writer.new }
    ensures ran { IfSome (R.remaining (device_of reader.old))
        (InputRan (Told how.entry) result (promised W.contents writer.old) (promised W.contents writer.new) (has_failed writer.new)) }
{
    courses_have_the_headline();
    let Ok(mut input) = InputLines::new(alloc) else {
        return none_taken(TalkFault::OutOfMemory);
    };
    match input.next(reader) {
        Next::Failed => none_taken(TalkFault::Reading),
        Next::End => finish(writer, 0, 1, error_line(WireFault::NotJson), None),
        Next::TooLong => finish(
            writer,
            1,
            1,
            error_line(WireFault::TooLong),
            Some(TalkFault::TooLong),
        ),
        Next::TooMany => unreachable!(),
        Next::Line => match open_vault(alloc, Key::FIXED, input.line()) {
            Err(text) => finish(writer, 1, 1, text, None),
            Ok(vault) => take_rest(alloc, how, vault, input, reader, writer),
        },
    }
}

/// Carries out the lines after the configuration, and writes for them what is asked for.
fn take_rest<R: Read, W: Write + Drop>(
    alloc: Global,
    how: Output<'_>,
    vault: Vault,
    input: InputLines,
    reader: &mut Watched<R>,
    writer: &mut Watched<BufWriter<W>>,
) -> Finished
    requires one { input.taken ≡ 1 }
    requires opens { OpensVault input.line vault }
    requires ready { AreReady reader.old writer.old }
    ensures report { Reports R.remaining result reader.old reader.new writer.new }
    ensures memory { result.fault ≢ Some OutOfMemory }
    ensures told { IfSome (prepend_known input.left (R.remaining (device_of reader.old)))
        (InputLeft (Told how.entry) vault result (promised W.contents writer.old) (promised W.contents writer.new) (has_failed writer.new)) }
{
    courses_join();
    match how {
        Output::Answers => {
            let line = Line::Cycle;
            let mut runner = Runner { alloc, vault, line };
            let finished = answer_lines(alloc, input, &mut runner, reader, writer);
            // The process ends next, and frees it at once.
            mem::forget(runner);
            finished
        }
        Output::Pictures { each } => {
            let mut artist = Artist { alloc, vault, each };
            let finished = answer_lines(alloc, input, &mut artist, reader, writer);
            end_drawing(&artist, finished, writer)
        }
        Output::Sharing { question } => {
            let first = copied(alloc, input.line());
            let mut artist = Artist {
                alloc,
                vault,
                each: false,
            };
            let finished = answer_lines(alloc, input, &mut artist, reader, writer);
            end_sharing(alloc, &artist.vault, &first, question, finished, writer)
        }
    }
}

fn copied(alloc: Global, line: &[u8]) -> Result<Vec<u8>, AllocError>
    ensures { IfOk result (λ bytes. bytes.items ≡ line.now) }
{
    let mut bytes = Vec::new(alloc);
    bytes.extend_from_slice(line)?;
    Ok(bytes)
}
