// A report in which no character hides.
ghost use Rattle.std.specs.Prelude.{◌≡◌, [], true, OnErr, OnOk};
ghost use Rattle.std.specs.Str.{IsUtf8};
ghost use Rattle.md_streams.specs.Sink.{FlushesOrFails, PutsOrFails};
ghost use Rattle.md_files.specs.Streams.CodedJson.{held_count, is_coded_json, json_contents, json_sink_of};
ghost use Rattle.md_files.specs.Streams.CodedText.{coded};

use crate::streams::coded_text::put_coded;
use md_streams::{Sink, SinkFault};
use std::str;

// A character of UTF-8 has so many bytes at most.
const ROOM: usize = 4;

/// A sink of a report. In one that is JSON, what hides in a string stands as its code: it is read back as it was. Any other,
/// as the sectors of an array, goes on as it is. It fails only where the sink below does.
#[derive(Drop)]
pub struct CodedJson<S> {
    out: S,
    is_json: bool,
    // The bytes of a character that is not whole yet.
    held: [u8; ROOM],
    count: usize,
}

impl<S> CodedJson<S> {
    /// Holds nothing yet. It takes no memory.
    pub fn new(out: S, is_json: bool) -> CodedJson<S>
        ensures sink { json_sink_of result ≡ out }
        ensures json { is_coded_json result ≡ is_json }
        ensures held { held_count result ≡ 0 }
    {
        CodedJson {
            out,
            is_json,
            held: [0; ROOM],
            count: 0,
        }
    }

    /// The sink below.
    pub fn into_inner(self) -> S
        ensures { result ≡ json_sink_of self }
    {
        self.out
    }
}

impl<S: Sink> CodedJson<S> {
    // What is put is a text, mostly, and else may end within a character.
    fn put_bytes(&mut self, bytes: &[u8]) -> Result<(), SinkFault>
        ensures ok { OnOk result (S.failed self.new.out ≡ S.failed self.old.out) }
        ensures err { OnErr result (S.failed self.new.out ≡ true) }
        ensures kept { self.new.is_json ≡ self.old.is_json }
    {
        for byte in bytes {
            self.take(*byte)?;
        }
        Ok(())
    }

    // What is no UTF-8 goes on as it is: no string of a report has any.
    fn take(&mut self, byte: u8) -> Result<(), SinkFault>
        ensures ok { OnOk result (S.failed self.new.out ≡ S.failed self.old.out) }
        ensures err { OnErr result (S.failed self.new.out ≡ true) }
        ensures kept { self.new.is_json ≡ self.old.is_json }
    {
        let place = self.count.min(ROOM - 1);
        self.held[place] = byte;
        self.count = place + 1;
        let whole = &self.held[..place + 1];
        let outcome = match str::from_utf8(whole) {
            Ok(text) => put_coded(&mut self.out, text),
            Err(_) if place + 1 == ROOM => self.out.put(whole),
            Err(_) => return Ok(()),
        };
        self.count = 0;
        outcome
    }

    // Puts out the bytes of a character that is not whole.
    fn put_held(&mut self) -> Result<(), SinkFault>
        ensures ok { OnOk result (S.failed self.new.out ≡ S.failed self.old.out) }
        ensures err { OnErr result (S.failed self.new.out ≡ true) }
        ensures none { self.old.count ≡ 0 → PutsOrFails S.contents S.failed self.old.out self.new.out [] result }
        ensures held { self.new.count ≡ 0 }
        ensures kept { self.new.is_json ≡ self.old.is_json }
    {
        let count = self.count.min(ROOM);
        self.count = 0;
        self.out.put(&self.held[..count])
    }
}

impl<S: Sink> Sink for CodedJson<S> {
    ghost contents = { json_contents S.contents };

    ghost failed = { λ s. S.failed s.out };

    ghost is_flushed = { λ s. S.is_flushed s.out };

    fn put(&mut self, bytes: &[u8]) -> Result<(), SinkFault>
        ensures puts { PutsOrFails (json_contents S.contents) (λ s. S.failed s.out) self.old self.new bytes.now result }

        // A whole text goes on in its codes, where nothing is held of one that is not whole.
        ensures coded { is_coded_json self.old ≡ true → held_count self.old ≡ 0 → IsUtf8 bytes.now
            → PutsOrFails S.contents S.failed (json_sink_of self.old) (json_sink_of self.new) (coded bytes.now) result × (held_count self.new ≡ 0) }
        ensures kept { is_coded_json self.new ≡ is_coded_json self.old }
    {
        if !self.is_json {
            return self.out.put(bytes);
        }
        match str::from_utf8(bytes) {
            Ok(text) if self.count == 0 => put_coded(&mut self.out, text),
            _ => self.put_bytes(bytes),
        }
    }

    fn flush(&mut self) -> Result<(), SinkFault>
        ensures flushes { FlushesOrFails (json_contents S.contents) (λ s. S.failed s.out) (λ s. S.is_flushed s.out) self.old self.new result }
        ensures coded { held_count self.old ≡ 0 → FlushesOrFails S.contents S.failed S.is_flushed (json_sink_of self.old) (json_sink_of self.new) result }
        ensures held { is_coded_json self.old ≡ true → held_count self.new ≡ 0 }
        ensures kept { is_coded_json self.new ≡ is_coded_json self.old }
    {
        if self.is_json {
            self.put_held()?;
        }
        self.out.flush()
    }
}
