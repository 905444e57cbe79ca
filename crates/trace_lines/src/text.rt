//! The printed text: one function for each kind of line and for what stands in it. Each puts its text behind what is
//! there.

ghost use Rattle.std.specs.Prelude.{◌≡◌, ◌++◌, OnOk, codes, decimal};
ghost use Rattle.trace_lines.specs.Text.{id_text, flags_text, item_text, chunk_text, place_word, is_shown, list_start};
ghost use Rattle.trace_lines.specs.Text.{accounts_text, accounts_line, touch_text, pulled_text, applied_text};
ghost use Rattle.trace_lines.specs.Text.{entry_text, answer_text, answer_told, link_word, set_line, get_line, busy_get_line};
ghost use Rattle.trace_lines.specs.Text.{get_held_line, hold_line, busy_hold_line, hit_line, read_line, drop_line};
ghost use Rattle.trace_lines.specs.Text.{del_line, pull_line, sweep_line, bump_line, drain_line, moves_line};
ghost use Rattle.trace_lines.specs.Text.{close_start, closed_line, fault_line};
ghost use Rattle.trace_lines.specs.Fields.{tail_word};

use crate::faults::Fault;
use bump_rules::{
    Accounts, Answer, Applied, Dropped, Ended, Entry, Head, ItemId, Place, Pulled, Start, Tail,
    Touch,
};
use itoa::Buffer;
use std::alloc::AllocError;

fn put_number(out: &mut Vec<u8>, n: u64) -> Result<(), AllocError>
    ensures { OnOk result (out.new.items ≡ out.old.items ++ decimal n) }
{
    // Most numbers of a line have one digit.
    if n < 10 {
        out.push(b'0' + n as u8)?;
        return Ok(());
    }
    let mut buffer = Buffer::new();
    out.extend_from_slice(buffer.format(n).as_bytes())
}

/// A word, and a number behind it.
pub fn put_word(out: &mut Vec<u8>, word: &[u8], number: u64) -> Result<(), AllocError>
    ensures { OnOk result (out.new.items ≡ out.old.items ++ word.now ++ decimal number) }
{
    out.extend_from_slice(word)?;
    put_number(out, number)
}

fn put_id(out: &mut Vec<u8>, id: ItemId) -> Result<(), AllocError>
    ensures { OnOk result (out.new.items ≡ out.old.items ++ id_text id) }
{
    put_number(out, u64::from(id.chunk))?;
    put_word(out, b".", u64::from(id.generation))
}

fn flags(head: Head) -> &'static str
    ensures { result.now ≡ flags_text head }
{
    if head.fetched {
        if head.active { "fa" } else { "f" }
    } else {
        "-"
    }
}

fn put_item(out: &mut Vec<u8>, chunk: u32, head: Head, time: u64) -> Result<(), AllocError>
    ensures { OnOk result (out.new.items ≡ out.old.items ++ item_text chunk head time) }
{
    let generation = head.generation;
    put_id(out, ItemId { chunk, generation })?;
    put_word(out, b":", u64::from(head.refs))?;
    out.push(b':')?;
    out.extend_from_slice(flags(head).as_bytes())?;
    put_word(out, b":", time)
}

/// What is told of a chunk in a list.
pub fn put_chunk(
    out: &mut Vec<u8>,
    place: Place,
    chunk: u32,
    head: Head,
    time: u64,
) -> Result<(), AllocError>
    ensures { OnOk result (out.new.items ≡ out.old.items ++ chunk_text place chunk head time) }
{
    match place {
        Place::Unused | Place::Retired => put_number(out, u64::from(chunk)),
        _ => put_item(out, chunk, head, time),
    }
}

fn word_of_place(place: Place) -> &'static str
    ensures { result.now ≡ place_word place }
{
    match place {
        Place::Hot => "hot",
        Place::Warm => "warm",
        Place::Cold => "cold",
        Place::Temp => "temp",
        Place::Dying => "dying",
        Place::Unused => "unused",
        Place::Retired => "retired",
    }
}

/// Whether a list of so many chunks is told of: TEMP's isn't where it is empty.
pub fn is_shown(place: Place, len: u32) -> bool
    ensures { result ≡ is_shown place len }
{
    match place {
        Place::Temp => len > 0,
        _ => true,
    }
}

/// The first words of a list's line.
pub fn put_list_start(
    out: &mut Vec<u8>,
    class: u32,
    place: Place,
    len: u32,
) -> Result<(), AllocError>
    ensures { OnOk result (out.new.items ≡ out.old.items ++ list_start class place len) }
{
    put_word(out, b"class ", u64::from(class))?;
    out.push(b' ')?;
    out.extend_from_slice(word_of_place(place).as_bytes())?;
    put_word(out, b" ", u64::from(len))
}

fn put_accounts(out: &mut Vec<u8>, accounts: Accounts, applied: u64) -> Result<(), AllocError>
    ensures { OnOk result (out.new.items ≡ out.old.items ++ accounts_text accounts applied) }
{
    put_word(out, b"attempted ", accounts.attempted)?;
    put_word(out, b" accepted ", accounts.accepted)?;
    put_word(out, b" full ", accounts.full)?;
    put_word(out, b" busy ", accounts.busy)?;
    put_word(out, b" refs ", accounts.refs)?;
    put_word(out, b" applied ", applied)
}

/// The line of a worker.
pub fn put_worker(
    out: &mut Vec<u8>,
    worker: u32,
    accounts: Accounts,
    applied: u64,
) -> Result<(), AllocError>
    ensures { OnOk result (out.new.items ≡ out.old.items ++ accounts_line worker accounts applied) }
{
    put_word(out, b"worker ", u64::from(worker))?;
    out.push(b' ')?;
    put_accounts(out, accounts, applied)?;
    out.push(b'\n')?;
    Ok(())
}

fn put_touch(out: &mut Vec<u8>, touch: Touch) -> Result<(), AllocError>
    ensures { OnOk result (out.new.items ≡ out.old.items ++ touch_text touch) }
{
    match touch {
        Touch::First => out.extend_from_slice(b"first"),
        Touch::Already => out.extend_from_slice(b"already"),
        Touch::Marked => out.extend_from_slice(b"marked"),
        Touch::Queued(number) => put_word(out, b"queued ", number),
        Touch::Dropped(Dropped::Full) => out.extend_from_slice(b"dropped full"),
        Touch::Dropped(Dropped::Busy) => out.extend_from_slice(b"dropped busy"),
        Touch::Dropped(Dropped::RefsFull) => out.extend_from_slice(b"dropped refs"),
        Touch::Exhausted => out.extend_from_slice(b"exhausted"),
    }
}

// A word, and an item's id behind it.
fn put_with_id(out: &mut Vec<u8>, word: &[u8], id: ItemId) -> Result<(), AllocError>
    ensures { OnOk result (out.new.items ≡ out.old.items ++ word.now ++ id_text id) }
{
    out.extend_from_slice(word)?;
    put_id(out, id)
}

fn put_pulled(out: &mut Vec<u8>, pulled: Pulled) -> Result<(), AllocError>
    ensures { OnOk result (out.new.items ≡ out.old.items ++ pulled_text pulled) }
{
    match pulled {
        Pulled::Empty => out.extend_from_slice(b"empty"),
        Pulled::Stay(id) => put_with_id(out, b"stay ", id),
        Pulled::Warm(id) => put_with_id(out, b"warm ", id),
        Pulled::Again(id) => put_with_id(out, b"again ", id),
        Pulled::Cold(id) => put_with_id(out, b"cold ", id),
        Pulled::Freed(id) => put_with_id(out, b"freed ", id),
        Pulled::Deferred(id) => put_with_id(out, b"deferred ", id),
    }
}

fn word_of_tail(tail: Tail) -> &'static str
    ensures { result.now ≡ tail_word tail }
{
    match tail {
        Tail::Hot => "hot",
        Tail::Warm => "warm",
        Tail::Cold => "cold",
        Tail::Evict => "evict",
    }
}

fn word_of_applied(applied: Applied) -> &'static str
    ensures { result.now ≡ applied_text applied }
{
    match applied {
        Applied::Moved => "warm",
        Applied::TimeOnly => "time",
        Applied::Gone(Ended::Freed) => "gone freed",
        Applied::Gone(Ended::Deferred) => "gone deferred",
    }
}

fn put_entry(out: &mut Vec<u8>, entry: Entry) -> Result<(), AllocError>
    ensures { OnOk result (out.new.items ≡ out.old.items ++ entry_text entry) }
{
    put_number(out, entry.number)?;
    put_with_id(out, b" ", entry.life)?;
    out.push(b' ')?;
    out.extend_from_slice(word_of_applied(entry.applied).as_bytes())
}

fn put_answer(out: &mut Vec<u8>, answer: Answer) -> Result<(), AllocError>
    ensures { OnOk result (out.new.items ≡ out.old.items ++ answer_text answer) }
{
    match answer {
        Answer::Linked(id) => put_id(out, id),
        Answer::NoFreeChunk => out.extend_from_slice(b"full"),
        Answer::Ended(Ended::Freed) => out.extend_from_slice(b"freed"),
        Answer::Ended(Ended::Deferred) => out.extend_from_slice(b"deferred"),
        Answer::NotLinked => out.extend_from_slice(b"gone"),
        Answer::Swept(count) => put_number(out, u64::from(count)),
        Answer::Pulled(pulled) => put_pulled(out, pulled),
        Answer::Held => out.extend_from_slice(b"held"),
        Answer::NoSuchChunk | Answer::Stale => out.extend_from_slice(b"miss"),
        Answer::RefsFull => out.extend_from_slice(b"refs"),
        Answer::Touched(touch) => put_touch(out, touch),
        Answer::Label(label) => put_number(out, label),
        Answer::Bumped(entry) => put_entry(out, entry),
        Answer::Done | Answer::Nothing => Ok(()),
    }
}

// What a worker's command answered, or that the worker is closed.
fn put_told(out: &mut Vec<u8>, answer: Option<Answer>) -> Result<(), AllocError>
    ensures { OnOk result (out.new.items ≡ out.old.items ++ answer_told answer) }
{
    match answer {
        Some(answer) => put_answer(out, answer),
        None => out.extend_from_slice(b"closed"),
    }
}

fn word_of_link(start: Start) -> &'static str
    ensures { result.now ≡ link_word start }
{
    match start {
        Start::Hot => "set",
        Start::Temp => "temp",
    }
}

/// The line of a `set`, or of a `temp`.
pub fn put_set(
    out: &mut Vec<u8>,
    start: Start,
    name: &str,
    answer: Answer,
) -> Result<(), AllocError>
    ensures { OnOk result (out.new.items ≡ out.old.items ++ set_line start name.now answer) }
{
    out.extend_from_slice(word_of_link(start).as_bytes())?;
    out.push(b' ')?;
    out.extend_from_slice(name.as_bytes())?;
    out.push(b' ')?;
    put_answer(out, answer)?;
    out.push(b'\n')?;
    Ok(())
}

// The first words of a line by a worker: the command, the worker and a name.
fn put_start(out: &mut Vec<u8>, command: &[u8], worker: u32, name: &str) -> Result<(), AllocError>
    ensures { OnOk result (out.new.items
        ≡ out.old.items ++ command.now ++ decimal worker ++ codes " " ++ name.now ++ codes " ") }
{
    put_word(out, command, u64::from(worker))?;
    out.push(b' ')?;
    out.extend_from_slice(name.as_bytes())?;
    out.push(b' ')?;
    Ok(())
}

/// The line of a `get` that took no hold, with the answer that says why.
pub fn put_get(
    out: &mut Vec<u8>,
    worker: u32,
    name: &str,
    answer: Option<Answer>,
) -> Result<(), AllocError>
    ensures { OnOk result (out.new.items ≡ out.old.items ++ get_line worker name.now answer) }
{
    put_start(out, b"get ", worker, name)?;
    put_told(out, answer)?;
    out.push(b'\n')?;
    Ok(())
}

/// The line of a `get` that took no hold since all its tries failed: an answer of a running store alone.
pub fn put_get_busy(out: &mut Vec<u8>, worker: u32, name: &str) -> Result<(), AllocError>
    ensures { OnOk result (out.new.items ≡ out.old.items ++ busy_get_line worker name.now) }
{
    put_start(out, b"get ", worker, name)?;
    out.extend_from_slice(b"busy\n")
}

/// The line of a `get` that held its item: what was read, and what the hit did.
pub fn put_get_held(
    out: &mut Vec<u8>,
    worker: u32,
    name: &str,
    label: Answer,
    hit: Answer,
) -> Result<(), AllocError>
    ensures { OnOk result (out.new.items ≡ out.old.items ++ get_held_line worker name.now label hit) }
{
    put_start(out, b"get ", worker, name)?;
    put_answer(out, label)?;
    out.push(b' ')?;
    put_answer(out, hit)?;
    out.push(b'\n')?;
    Ok(())
}

/// The line of a `hold`.
pub fn put_hold(
    out: &mut Vec<u8>,
    worker: u32,
    name: &str,
    hold: &str,
    answer: Option<Answer>,
) -> Result<(), AllocError>
    ensures { OnOk result (out.new.items ≡ out.old.items ++ hold_line worker name.now hold.now answer) }
{
    put_start(out, b"hold ", worker, name)?;
    out.extend_from_slice(hold.as_bytes())?;
    out.push(b' ')?;
    put_told(out, answer)?;
    out.push(b'\n')?;
    Ok(())
}

/// The line of a `hold` that took none since all its tries failed: an answer of a running store alone.
pub fn put_hold_busy(
    out: &mut Vec<u8>,
    worker: u32,
    name: &str,
    hold: &str,
) -> Result<(), AllocError>
    ensures { OnOk result (out.new.items ≡ out.old.items ++ busy_hold_line worker name.now hold.now) }
{
    put_start(out, b"hold ", worker, name)?;
    out.extend_from_slice(hold.as_bytes())?;
    out.extend_from_slice(b" busy\n")
}

/// The line of a `hit`.
pub fn put_hit(
    out: &mut Vec<u8>,
    worker: u32,
    hold: &str,
    answer: Option<Answer>,
) -> Result<(), AllocError>
    ensures { OnOk result (out.new.items ≡ out.old.items ++ hit_line worker hold.now answer) }
{
    put_start(out, b"hit ", worker, hold)?;
    put_told(out, answer)?;
    out.push(b'\n')?;
    Ok(())
}

/// The line of a `read`.
pub fn put_read(out: &mut Vec<u8>, hold: &str, answer: Answer) -> Result<(), AllocError>
    ensures { OnOk result (out.new.items ≡ out.old.items ++ read_line hold.now answer) }
{
    out.extend_from_slice(b"read ")?;
    out.extend_from_slice(hold.as_bytes())?;
    out.push(b' ')?;
    put_answer(out, answer)?;
    out.push(b'\n')?;
    Ok(())
}

/// The line of a `drop`.
pub fn put_drop(out: &mut Vec<u8>, hold: &str) -> Result<(), AllocError>
    ensures { OnOk result (out.new.items ≡ out.old.items ++ drop_line hold.now) }
{
    out.extend_from_slice(b"drop ")?;
    out.extend_from_slice(hold.as_bytes())?;
    out.push(b'\n')?;
    Ok(())
}

/// The line of a `del`.
pub fn put_del(out: &mut Vec<u8>, name: &str, answer: Answer) -> Result<(), AllocError>
    ensures { OnOk result (out.new.items ≡ out.old.items ++ del_line name.now answer) }
{
    out.extend_from_slice(b"del ")?;
    out.extend_from_slice(name.as_bytes())?;
    out.push(b' ')?;
    put_answer(out, answer)?;
    out.push(b'\n')?;
    Ok(())
}

/// The line of a `sweep`.
pub fn put_sweep(out: &mut Vec<u8>, class: u32, answer: Answer) -> Result<(), AllocError>
    ensures { OnOk result (out.new.items ≡ out.old.items ++ sweep_line class answer) }
{
    put_word(out, b"sweep ", u64::from(class))?;
    out.push(b' ')?;
    put_answer(out, answer)?;
    out.push(b'\n')?;
    Ok(())
}

/// The line of a `pull`.
pub fn put_pull(out: &mut Vec<u8>, class: u32, tail: Tail, answer: Answer) -> Result<(), AllocError>
    ensures { OnOk result (out.new.items ≡ out.old.items ++ pull_line class tail answer) }
{
    put_word(out, b"pull ", u64::from(class))?;
    out.push(b' ')?;
    out.extend_from_slice(word_of_tail(tail).as_bytes())?;
    out.push(b' ')?;
    put_answer(out, answer)?;
    out.push(b'\n')?;
    Ok(())
}

/// The line of a bump that was applied.
pub fn put_bump(out: &mut Vec<u8>, worker: u32, entry: Entry) -> Result<(), AllocError>
    ensures { OnOk result (out.new.items ≡ out.old.items ++ bump_line worker entry) }
{
    put_word(out, b"bump ", u64::from(worker))?;
    out.push(b' ')?;
    put_entry(out, entry)?;
    out.push(b'\n')?;
    Ok(())
}

/// The last line of a `drain`.
pub fn put_drain(out: &mut Vec<u8>, count: u64) -> Result<(), AllocError>
    ensures { OnOk result (out.new.items ≡ out.old.items ++ drain_line count) }
{
    put_word(out, b"drain ", count)?;
    out.push(b'\n')?;
    Ok(())
}

/// The line of a class and a worker of `moves`.
pub fn put_moves(out: &mut Vec<u8>, class: u32, worker: u32, count: u64) -> Result<(), AllocError>
    ensures { OnOk result (out.new.items ≡ out.old.items ++ moves_line class worker count) }
{
    put_word(out, b"moves ", u64::from(class))?;
    put_word(out, b" ", u64::from(worker))?;
    put_word(out, b" ", count)?;
    out.push(b'\n')?;
    Ok(())
}

// The first words of the line of a `close`.
fn put_close_start(out: &mut Vec<u8>, worker: u32) -> Result<(), AllocError>
    ensures { OnOk result (out.new.items ≡ out.old.items ++ close_start worker) }
{
    put_word(out, b"close ", u64::from(worker))?;
    out.push(b' ')?;
    Ok(())
}

/// The last line of a `close`, with what the worker and its lane counted.
pub fn put_close(
    out: &mut Vec<u8>,
    worker: u32,
    accounts: Accounts,
    applied: u64,
) -> Result<(), AllocError>
    ensures { OnOk result (out.new.items ≡ out.old.items ++ close_start worker ++ accounts_text accounts applied
        ++ codes "\n") }
{
    put_close_start(out, worker)?;
    put_accounts(out, accounts, applied)?;
    out.push(b'\n')?;
    Ok(())
}

/// The line of a `close` of a worker that was closed before.
pub fn put_closed(out: &mut Vec<u8>, worker: u32) -> Result<(), AllocError>
    ensures { OnOk result (out.new.items ≡ out.old.items ++ closed_line worker) }
{
    put_close_start(out, worker)?;
    put_told(out, None)?;
    out.push(b'\n')?;
    Ok(())
}

/// The line of a fault.
pub fn put_fault(out: &mut Vec<u8>, number: u64, fault: Fault) -> Result<(), AllocError>
    ensures { OnOk result (out.new.items ≡ out.old.items ++ fault_line number fault) }
{
    put_word(out, b"line ", number)?;
    out.extend_from_slice(b": ")?;
    out.extend_from_slice(fault.word().as_bytes())?;
    out.push(b'\n')?;
    Ok(())
}
