ghost use Rattle.std.specs.Prelude.{◌≡◌, [], ◌∷◌, IfOk, IfErr, vec_items, decimal};
ghost use Rattle.fault.specs.Refusals.{refusal, refused, told};
ghost use Rattle.writer.specs.Written.{Blank, Wrote, finished};

use fault::Fault;
use itoa::Buffer;
use std::alloc::{AllocError, Global};

// The bytes written so far, and whether they found room. After bytes that found none, what is written is lost.
#[derive(Drop)]
pub struct Writer {
    bytes: Vec<u8>,
    status: Result<(), AllocError>,
}

impl Writer {
    // An empty text, with room for so many bytes.
    pub fn with_room(heap: Global, room: usize) -> Result<Writer, Fault>
        ensures made { IfOk result (λ w. Blank room w) }
        ensures refused { IfErr result (λ f. refusal f ≡ refused 0 0 0) }
    {
        let bytes = Vec::with_capacity(heap, room)?;
        Ok(Writer {
            bytes,
            status: Ok(()),
        })
    }

    // The bytes after those written before.
    pub fn put(&mut self, bytes: &[u8])
        ensures { Wrote self.old bytes.now self.new }
    {
        if self.status.is_ok() {
            self.status = self.bytes.extend_from_slice(bytes);
        }
    }

    // One byte.
    pub fn byte(&mut self, byte: u8)
        ensures { Wrote self.old (byte ∷ []) self.new }
    {
        self.put(&[byte]);
    }

    // A number, by its digits.
    pub fn number(&mut self, n: u64)
        ensures { Wrote self.old (decimal n) self.new }
    {
        let mut digits = Buffer::new();
        self.put(digits.format(n).as_bytes());
    }

    // All that was written, unless it found no room.
    pub fn finish(self) -> Result<Vec<u8>, Fault>
        ensures { told vec_items result ≡ finished self }
    {
        let Writer { bytes, status } = self;
        status?;
        Ok(bytes)
    }
}
