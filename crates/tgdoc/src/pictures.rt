//! The vault drawn in place of answers.
ghost use Rattle.std.specs.Prelude.{◌≡◌, ◌≢◌, ◌↔◌, ◌≤◌, ℕ, List, [], true, false, IfOk, Some};
ghost use Rattle.tg_draw.specs.Promise.Picture.{Draws};
ghost use Rattle.tg_talk.specs.Promise.Answering.{is_wrong, one_if, shown_line};
ghost use Rattle.tg_talk.specs.Promise.Devices.{has_failed, owed, promised};
ghost use Rattle.tg_talk.specs.declared.fault.TalkFault.TheVariants.{OutOfMemory, Reading, Writing};
ghost use Rattle.tgdoc.specs.Promise.Drawings.{DrawnFor, PictureAtEnd, Shown, ends_label, is_broken, line_label};
ghost use Rattle.tgdoc.specs.Inner.Drawing.{ArtistSays, EndsDrawing, WrittenLast};

use crate::answer::answer_apart;
use crate::finish::finish;
use itoa::Buffer;
use std::alloc::{AllocError, Global};
use std::io::{BufWriter, Write};
use tg_draw::draw;
use tg_talk::{Finished, Responder, Said, TalkFault, Text, Watched};
use tg_vault::Vault;
use tg_wire::{LineRoom, WireFault, error_line};

/// Who answers the lines of a run that is drawn: with a picture of the vault after each, or with nothing.
#[derive(Drop)]
pub(crate) struct Artist {
    pub alloc: Global,
    pub vault: Vault,
    pub each: bool,
}

impl Responder for Artist {
    ghost stays = { λ start now. (now.each ≡ start.each) × (now.vault.opening ≡ start.vault.opening) };

    ghost says = { ArtistSays };

    ghost may_give_up = { false };

    #[inline(always)]
    fn respond(&mut self, line: &[u8], room: &mut LineRoom) -> Said {
        let answered = answer_apart(self.alloc, &mut self.vault, line, room);
        Said::Answer(shown(self, line, answered, room))
    }
}

/// What is written for a line with this answer.
fn shown(artist: &Artist, line: &[u8], answered: Text, room: &mut LineRoom) -> Text
    ensures { Shown artist.now.each artist.now.vault line.now (shown_line room.old answered) (one_if (is_wrong answered)) (shown_line room.new result) (one_if (is_wrong result)) }
{
    if artist.each {
        drawn(artist.alloc, &artist.vault, line, answered, room)
    } else {
        quiet(answered, room)
    }
}

/// The picture of the vault for a line with this answer, or `out of memory` in its place.
fn drawn(alloc: Global, vault: &Vault, line: &[u8], answered: Text, room: &mut LineRoom) -> Text
    ensures { DrawnFor vault.now line.now (shown_line room.old answered) (one_if (is_wrong answered)) (shown_line room.new result) (one_if (is_wrong result)) }
{
    match draw_line(alloc, vault, line, answered.bytes(room)) {
        Err(_) => Text::Refusal(WireFault::OutOfMemory),
        Ok(picture) => {
            room.put(picture);
            counted(answered.is_error())
        }
    }
}

/// The picture of the vault, with a line and its answer as its label.
fn draw_line(
    alloc: Global,
    vault: &Vault,
    line: &[u8],
    answered: &[u8],
) -> Result<Vec<u8>, AllocError>
    ensures { IfOk result (λ text. Draws vault.now (line_label line.now answered.now) text.items) }
{
    let label = label_of(alloc, line, answered)?;
    let rows = label.as_slice();
    draw(alloc, vault, rows)
}

/// A line and its answer as a label.
fn label_of(alloc: Global, line: &[u8], answered: &[u8]) -> Result<Vec<u8>, AllocError>
    ensures { IfOk result (λ label. label.items ≡ line_label line.now answered.now) }
{
    let mut label = Vec::new(alloc);
    label.extend_from_slice(line)?;
    label.push(b'\n')?;
    label.extend_from_slice(answered)?;
    Ok(label)
}

/// The room's line, which counts as an `error` line or not.
fn counted(is_error: bool) -> Text
    ensures text { (line : List ℕ) → shown_line line result ≡ line }
    ensures error { is_wrong result ≡ is_error }
{
    if is_error {
        Text::ErrorLine
    } else {
        Text::Line
    }
}

/// Nothing, which counts as the text does.
fn quiet(text: Text, room: &mut LineRoom) -> Text
    ensures silent { shown_line room.new result ≡ [] }
    ensures error { is_wrong result ≡ is_wrong text }
{
    room.clear();
    counted(text.is_error())
}

/// Draws the vault after the last line, if it is not drawn after each, and neither the reader nor the writer failed.
pub(crate) fn end_drawing<W: Write + Drop>(
    artist: &Artist,
    ended: Finished,
    writer: &mut Watched<BufWriter<W>>,
) -> Finished
    requires paid { has_failed writer.old ≡ false → owed writer.old ≡ [] }
    requires writing { (has_failed writer.old ≡ true) ↔ (ended.fault ≡ Some Writing) }
    requires few { ended.errors ≤ 1000001 }
    ensures paid { has_failed writer.new ≡ false → owed writer.new ≡ [] }
    ensures reading { (result.fault ≡ Some Reading) ↔ (ended.fault ≡ Some Reading) }
    ensures writing { (has_failed writer.new ≡ true) ↔ (result.fault ≡ Some Writing) }
    ensures memory { result.fault ≡ Some OutOfMemory → ended.fault ≡ Some OutOfMemory }
    ensures lines { result.lines ≡ ended.lines }
    ensures ends { EndsDrawing artist.now ended result (promised W.contents writer.old) (has_failed writer.old) (promised W.contents writer.new) (has_failed writer.new) }
{
    let each = artist.each;
    if each {
        return ended;
    }
    let broken = is_broken(ended.fault);
    if broken {
        return ended;
    }
    draw_last(artist.alloc, &artist.vault, ended, writer)
}

/// Whether the reader or the writer failed.
fn is_broken(fault: Option<TalkFault>) -> bool
    ensures { result ≡ is_broken fault }
{
    match fault {
        None => false,
        Some(TalkFault::Reading) => true,
        Some(TalkFault::Writing) => true,
        Some(TalkFault::TooLong) => false,
        Some(TalkFault::TooMany) => false,
        Some(TalkFault::OutOfMemory) => false,
    }
}

/// Draws the vault after the last line, once the lines have ended in this way.
fn draw_last<W: Write + Drop>(
    alloc: Global,
    vault: &Vault,
    ended: Finished,
    writer: &mut Watched<BufWriter<W>>,
) -> Finished
    requires writes { has_failed writer.old ≡ false }
    requires other { ended.fault ≢ Some Writing }
    requires few { ended.errors ≤ 1000001 }
    ensures paid { has_failed writer.new ≡ false → owed writer.new ≡ [] }
    ensures writing { (has_failed writer.new ≡ true) ↔ (result.fault ≡ Some Writing) }
    ensures lines { result.lines ≡ ended.lines }
    ensures written { WrittenLast (PictureAtEnd vault.now ended) ended result (promised W.contents writer.old) (promised W.contents writer.new) (has_failed writer.new) }
{
    match draw_end(alloc, vault, ended.lines, ended.errors) {
        Err(_) => {
            let text = error_line(WireFault::OutOfMemory);
            finish(writer, ended.lines, ended.errors + 1, text, ended.fault)
        }
        Ok(picture) => {
            let text = picture.as_slice();
            finish(writer, ended.lines, ended.errors, text, ended.fault)
        }
    }
}

/// The picture of the vault after this many lines and this many `error` answers.
fn draw_end(alloc: Global, vault: &Vault, lines: u64, errors: u64) -> Result<Vec<u8>, AllocError>
    ensures { IfOk result (λ text. Draws vault.now (ends_label lines errors) text.items) }
{
    let label = end_label(alloc, lines, errors)?;
    let rows = label.as_slice();
    draw(alloc, vault, rows)
}

/// The label of the picture after the last line.
fn end_label(alloc: Global, lines: u64, errors: u64) -> Result<Vec<u8>, AllocError>
    ensures { IfOk result (λ label. label.items ≡ ends_label lines errors) }
{
    let mut digits = Buffer::new();
    let mut label = Vec::new(alloc);
    label.extend_from_slice(b"lines ")?;
    label.extend_from_slice(digits.format(lines).as_bytes())?;
    label.extend_from_slice(b", errors ")?;
    label.extend_from_slice(digits.format(errors).as_bytes())?;
    label.extend_from_slice(b"\n")?;
    Ok(label)
}
