// The bytes of this model's device record, in the order of docs/CONSOLE.md, and the record that bytes give.
#![tactic(auto)]

ghost use Rattle.std.specs.Prelude.{◌≡◌, ◌*◌, length, drop};
ghost use Rattle.std.proofs.lemmas.List.Edits.{sets};
ghost use Rattle.wire.specs.Parts.{joined, parts};
ghost use Rattle.wire.specs.Numbers.{wide, eight};
ghost use Rattle.record.specs.Bytes.{counter_size, set_size, nexus_size, word_size, nexuses_from, words_from, set_bytes, nexus_bytes, record_bytes};
ghost use Rattle.record.specs.Reading.{set_read, nexus_read, record_read};
ghost use Rattle.sizes_16.specs.Sizes.{nexus_count, place_count};
ghost use Rattle.device_16.specs.Model.{device, worded, record_of};
ghost use Rattle.record_16.specs.Loading.{loaded};

use device::{Nexus, Set};
use device_16::{Device, Record};
use record_code::{NEXUS_SIZE, SET_SIZE, WORD_SIZE};
use sizes_16::{NEXUSES, PLACES};

const SETS_FROM: usize = 4;

const NEXUSES_FROM: usize = SETS_FROM + PLACES * SET_SIZE;

const WORDS_FROM: usize = NEXUSES_FROM + NEXUSES * NEXUS_SIZE;

pub const RECORD_SIZE: usize = WORDS_FROM + PLACES * WORD_SIZE;

// The three that store stay apart: one for all would be handed the place, the count, the size and the bytes, more than its loop has lines.

// Stores the bytes of each set, so many.
fn put_sets(buffer: &mut [u8], places: [Set; PLACES])
    ensures { (buffer.new ≡ sets buffer.old counter_size (joined set_bytes places)) × (length (joined set_bytes places) ≡ place_count * set_size) }
{
    for (place, set) in places.iter().enumerate() {
        let bytes = record_code::set_bytes(*set);
        wire_code::put(buffer, SETS_FROM + place * SET_SIZE, &bytes);
    }
}

// Stores the bytes of each nexus, so many.
fn put_nexuses(buffer: &mut [u8], nexuses: [Nexus; NEXUSES])
    ensures { (buffer.new ≡ sets buffer.old (nexuses_from place_count) (joined nexus_bytes nexuses)) × (length (joined nexus_bytes nexuses) ≡ nexus_count * nexus_size) }
{
    for (n, nexus) in nexuses.iter().enumerate() {
        let bytes = record_code::nexus_bytes(*nexus);
        wire_code::put(buffer, NEXUSES_FROM + n * NEXUS_SIZE, &bytes);
    }
}

// Stores the bytes of each word, so many.
fn put_words(buffer: &mut [u8], words: [u64; PLACES])
    ensures { (buffer.new ≡ sets buffer.old (words_from nexus_count place_count) (joined eight words)) × (length (joined eight words) ≡ place_count * word_size) }
{
    for (place, word) in words.iter().enumerate() {
        let bytes = wire_code::eight(*word);
        wire_code::put(buffer, WORDS_FROM + place * WORD_SIZE, &bytes);
    }
}

pub fn record_bytes(r: Record) -> [u8; RECORD_SIZE]
    ensures { result ≡ record_bytes (worded r) }
{
    let mut out = [0u8; RECORD_SIZE];
    wire_code::put(&mut out, 0, &wire_code::four(r.device.counter));
    put_sets(&mut out, r.device.sets);
    put_nexuses(&mut out, r.device.nexuses);
    put_words(&mut out, r.words);
    out
}

// The three that read stay apart for the same reason, and go by index: of iter_mut with enumerate the library doesn't promise what is written.

fn sets_of(bytes: &[u8]) -> [Set; PLACES]
    ensures { result ≡ parts set_read set_size place_count (drop counter_size bytes.now) }
{
    let mut out = [Set::DEFAULT; PLACES];
    for place in 0..PLACES {
        out[place] = record_code::set_at(bytes, SETS_FROM + place * SET_SIZE);
    }
    out
}

fn nexuses_of(bytes: &[u8]) -> [Nexus; NEXUSES]
    ensures { result ≡ parts nexus_read nexus_size nexus_count (drop (nexuses_from place_count) bytes.now) }
{
    let mut out = [Nexus::NEW; NEXUSES];
    for n in 0..NEXUSES {
        out[n] = record_code::nexus_at(bytes, NEXUSES_FROM + n * NEXUS_SIZE);
    }
    out
}

fn words_read(bytes: &[u8]) -> [u64; PLACES]
    ensures { result ≡ parts wide word_size place_count (drop (words_from nexus_count place_count) bytes.now) }
{
    let mut out = [0u64; PLACES];
    for place in 0..PLACES {
        out[place] = record_code::word_at(bytes, WORDS_FROM + place * WORD_SIZE);
    }
    out
}

fn device_of(bytes: &[u8]) -> Device
    ensures { result ≡ device (record_read nexus_count place_count bytes.now).state }
{
    Device {
        counter: wire_code::number_at(bytes, 0),
        sets: sets_of(bytes),
        nexuses: nexuses_of(bytes),
    }
}

fn record_of(bytes: &[u8]) -> Record
    ensures { result ≡ record_of (record_read nexus_count place_count bytes.now) }
{
    Record {
        device: device_of(bytes),
        words: words_read(bytes),
    }
}

// Bytes are a record where the record that they give has the same bytes: their count is right, and each yes or no is 1 or 0. Others are
// refused, and give the record of power-on.
pub fn load(bytes: &[u8]) -> Result<Record, Record>
    ensures { result ≡ loaded bytes.now }
{
    let record = record_of(bytes);
    if bytes == record_bytes(record).as_slice() {
        return Ok(record);
    }
    let new = words_16::power_on();
    Err(new)
}
