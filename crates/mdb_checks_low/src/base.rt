//! Cases of mdb_base.

use mdb_base::{
    AcknowledgedMessage, Acknowledgment, AcknowledgmentReceiver, AddressError, MemSink, MemSource,
    ObjectId, Options, Reading, ServerAddress, Sink, Source, Writing,
};
use mdb_cases::{Page, made_error, made_options, number, parted, small, value_of, version};

type Receiver = AcknowledgmentReceiver<u8>;

type Resolution = Acknowledgment<u8>;

/// `address A.b`: the address as it is printed.
pub fn address(page: &mut Page, given: &str) {
    match ServerAddress::parse(page.alloc, given) {
        Ok(address) => page.show(&address),
        Err(AddressError::BadAddress) => page.put("bad"),
        Err(AddressError::OutOfMemory) => page.fail(),
    }
}

fn show_id(page: &mut Page, id: &ObjectId) {
    page.show(id);
    page.put(" ");
    match id.to_hex(page.alloc) {
        Ok(digits) => page.put(digits.as_str()),
        Err(_) => page.fail(),
    }
}

/// `id DIGITS`: the id as it is printed.
pub fn id(page: &mut Page, given: &str) {
    match ObjectId::from_hex(given) {
        Some(id) => show_id(page, &id),
        None => page.put("bad"),
    }
}

/// `error kind=91 labels=A,B version=7 has=B message=..`: the error as it is printed, and after `|` each word that is
/// true of it.
pub fn error(page: &mut Page, given: &str) {
    let (words, message) = given.split_once(" message=").unwrap_or((given, ""));
    let error = made_error(page, words, message);
    page.show(&error);
    page.put("|");
    page.put_if(error.is_network_error(), " network");
    page.put_if(error.is_network_timeout(), " timeout");
    page.put_if(error.is_non_timeout_network_error(), " no-timeout");
    page.put_if(error.is_auth_error(), " auth");
    page.put_if(error.is_incompatible_server(), " incompatible");
    page.put_if(error.is_recovering(), " recovering");
    page.put_if(error.is_not_writable_primary(), " not-writable");
    page.put_if(error.is_shutting_down(), " shutting-down");
    page.put_if(error.is_state_change_error(), " state-change");
    page.put_if(error.contains_label(value_of(words, "has")), " has");
    drop(error);
}

/// `same-address a:1 A:1`: whether the two addresses are one, and whether both are regular.
pub fn same_address(page: &mut Page, given: &str) {
    let (own, other) = parted(given);
    let Some(own) = page.address(own) else {
        return;
    };
    let Some(other) = page.address(other) else {
        return;
    };
    page.answer(own.is(&other));
    page.put_if(own.is_regular() && other.is_regular(), " regular");
}

/// `newer 7 6`: whether the first version is the more recent one.
pub fn newer(page: &mut Page, given: &str) {
    let (first, second) = parted(given);
    page.answer(version(first).is_more_recent_than(&version(second)));
}

fn check(page: &mut Page, options: &Options) {
    match options.check() {
        Some(rule) => page.debug(&rule),
        None => page.put("good"),
    }
}

/// `options a:1,a:2 direct ..`: the first rule that a copy of such options breaks.
pub fn options(page: &mut Page, given: &str) {
    let options = made_options(page, given);
    let copied: Result<_, _> = options.clone();
    drop(options);
    match &copied {
        Ok(options) => check(page, options),
        Err(_) => page.fail(),
    }
    drop(copied);
}

// One read into this much room: the bytes that were read, or that it failed.
fn read_once<S: Source>(page: &mut Page, source: &mut S, room: u64) {
    let mut into = [0u8; 16];
    let room = room.min(16) as usize;
    match source.read(&mut into[..room]) {
        Ok(count) => page.put(str::from_utf8(&into[..count.min(16)]).unwrap_or("malformed")),
        Err(_) => page.put("failed"),
    }
    page.put(".");
}

fn read_each<S: Source>(page: &mut Page, source: &mut S, rooms: &str) {
    for room in rooms.split(',') {
        read_once(page, source, number(room));
    }
}

/// `source held=abc piece=2 fails=2 rooms=8,8`: what each read gives, with a point after it.
pub fn source(page: &mut Page, given: &str) {
    let piece = small(value_of(given, "piece")).max(1) as usize;
    let held = page.bytes(value_of(given, "held"));
    let fails = page.numbers(value_of(given, "fails"));
    let mut source = MemSource::new(held, piece, fails);
    read_each(page, &mut source, value_of(given, "rooms"));
    drop(source);
}

// `base reading held=ab rooms=2`
fn reading(page: &mut Page, given: &str) {
    let mut source = Reading::new(value_of(given, "held").as_bytes());
    read_each(page, &mut source, value_of(given, "rooms"));
}

// One write, or a flush where the piece is `flush`: how many bytes were taken, or that it failed.
fn write_once<S: Sink>(page: &mut Page, sink: &mut S, piece: &str) {
    let answer = if piece == "flush" {
        sink.flush().map(|_| 0)
    } else {
        sink.write(piece.as_bytes())
    };
    match answer {
        Ok(count) => page.show(&count),
        Err(_) => page.put("failed"),
    }
    page.put(".");
}

fn write_each<S: Sink>(page: &mut Page, sink: &mut S, pieces: &str) {
    for piece in pieces.split(',') {
        write_once(page, sink, piece);
    }
}

/// `sink room=3 piece=2 fails=2 pieces=abc,c,flush`: what each call answers, with a point after it, and then what was
/// taken.
pub fn sink(page: &mut Page, given: &str) {
    let room = small(value_of(given, "room")) as usize;
    let piece = small(value_of(given, "piece")) as usize;
    let fails = page.numbers(value_of(given, "fails"));
    match MemSink::new(page.alloc, room, piece, fails) {
        Ok(mut sink) => {
            write_each(page, &mut sink, value_of(given, "pieces"));
            page.put(str::from_utf8(sink.taken()).unwrap_or("malformed"));
        }
        Err(_) => page.fail(),
    }
}

// `base writing pieces=ab,flush`
fn writing(page: &mut Page, given: &str) {
    let mut sink = Writing::new(Vec::<u8>::new(page.alloc));
    write_each(page, &mut sink, value_of(given, "pieces"));
}

fn show_resolved(page: &mut Page, given: u64, receiver: Receiver, acknowledgment: Resolution) {
    match receiver.resolve(acknowledgment) {
        Ok(answer) => page.show(&answer),
        Err(_) => page.show(&given),
    }
}

// What was refused comes back: each half resolves with the other half of its own ticket.
fn show_refused(page: &mut Page, own: u64, other: u64, back: (Receiver, Resolution)) {
    let (receiver, acknowledgment) = back;
    let (_, late) = AcknowledgedMessage::<u32, u8>::package(other, 51);
    let (message, _) = AcknowledgedMessage::<u32, u8>::package(own, 41);
    page.put(" refused ");
    show_resolved(page, other, late, acknowledgment);
    page.put(" ");
    show_resolved(page, own, receiver, message.acknowledge(2));
}

/// `acknowledge 4 5`: a message under the second ticket, the receiver of the first one, and what it makes of the
/// acknowledgment 9; where it is refused, what both halves come to.
pub fn acknowledge(page: &mut Page, given: &str) {
    let (own, other) = parted(given);
    let (own, other) = (number(own), number(other));
    let (_, receiver) = AcknowledgedMessage::<u32, u8>::package(own, 40);
    let (message, _) = AcknowledgedMessage::<u32, u8>::package(other, 50);
    page.show(message.message());
    let (_, sender) = message.into_parts();
    match receiver.resolve(sender.acknowledge(9)) {
        Ok(answer) => page.put_if(answer == 9, " 9"),
        Err(back) => show_refused(page, own, other, back),
    }
}

/// `base reading ..`, `base writing ..`.
pub fn answer(page: &mut Page, given: &str) {
    let (kind, given) = parted(given);
    match kind {
        "reading" => reading(page, given),
        "writing" => writing(page, given),
        _ => page.put("malformed"),
    }
}
