//! The buffer through which lines go to a sink.
ghost use Rattle.std.specs.Prelude.{◌≡◌, ◌↔◌, ◌==◌, ◌+◌, ◌-◌, ◌<◌, ◌≤◌, [], ◌∷◌, ◌++◌, length, take, drop, decimal, IsTrue, OnOk};
ghost use Rattle.std.specs.Fmt.{signed_decimal};
ghost use Rattle.room_outside.specs.line_text.Lines.{numbers_text};
ghost use Rattle.std.specs.List.{concat};
ghost use Rattle.room_outside.specs.line_text.Parts.{part_text, part_texts};
ghost use Rattle.room_outside.specs.Faults.{last_count};
ghost use Rattle.room_outside.specs.line_text.Output.{Held, Counts, Puts, at_rest, emptied, holding, new_held};

use crate::line_text::laying::{
    PIECE, Piece, lay_four, lay_number, lay_part, lay_signed, lay_three, lay_two,
};
use crate::line_text::part::{Part, most_of_number, most_of_signed};
use crate::{Failed, Sink, WriteFault, write_whole};
use itoa::Buffer;
use std::marker::Model;

/// The bytes of a line that were not written yet, at most a piece, and how many bytes the sink has
/// taken from the buffer in all: with one buffer for a whole text, this is what a fault tells.
#[derive(Drop)]
pub struct LineBuffer {
    bytes: Piece,
    len: usize,
    // It stands still at its last value.
    taken: usize,
}

impl Model for LineBuffer {
    ghost use Rattle.std.specs.Prelude.{◌≤◌, take};
    ghost use Rattle.room_outside.specs.line_text.Output.{Held};

    ghost Value = { Held };

    ghost view = { λ b. record { bytes = take b.len b.bytes; taken = b.taken } };

    ghost invariant = { λ b. b.len ≤ 4096 };
}

impl LineBuffer {
    pub fn new() -> LineBuffer
        ensures { result ≡ new_held }
    {
        LineBuffer {
            bytes: [0; PIECE],
            len: 0,
            taken: 0,
        }
    }

    /// The fault of a text that went through this buffer alone.
    pub fn fault(&self) -> WriteFault
        ensures taken { result.taken ≡ self.now.taken }
        ensures range { result.taken ≤ last_count }
    {
        WriteFault::after(self.taken)
    }

    /// Forgets what the buffer holds.
    pub fn clear(&mut self)
        ensures { self.new ≡ emptied self.old }
    {
        self.len = 0;
    }

    /// Counts bytes that the sink took.
    fn count(&mut self, more: usize)
        ensures bytes { self.new.bytes ≡ self.old.bytes }
        ensures count { Counts self.old.taken self.new.taken more }
    {
        self.taken = self.taken.saturating_add(more);
    }

    /// Writes what the buffer holds.
    #[inline(never)]
    pub fn flush<K: Sink>(&mut self, sink: &mut K) -> Result<(), Failed>
        ensures puts { Puts result
            (record { written = K.written sink.old; held = self.old })
            (record { written = K.written sink.new; held = self.new }) [] }
        ensures empty { OnOk result (self.new.bytes ≡ []) }
    {
        match write_whole(sink, &self.bytes[..self.len]) {
            Ok(()) => {
                self.count(self.len);
                self.clear();
                Ok(())
            }
            Err(fault) => {
                self.count(fault.taken);
                Err(Failed)
            }
        }
    }

    fn is_full(&self) -> bool
        ensures full { result ≡ (length self.now.bytes == 4096) }
        ensures within { length self.now.bytes ≤ 4096 }
    {
        self.len == PIECE
    }

    #[inline(always)]
    fn push(&mut self, byte: u8)
        requires { length self.old.bytes < 4096 }
        ensures { self.new ≡ holding self.old (byte ∷ []) }
    {
        self.bytes[self.len] = byte;
        self.len += 1;
    }

    /// Whether there is room for so many bytes.
    #[inline(always)]
    fn has_room(&self, bytes: usize) -> bool
        ensures { IsTrue result ↔ (length self.now.bytes + bytes ≤ 4096) }
    {
        bytes <= PIECE - self.len
    }

    /// Takes bytes for which there is room.
    #[inline(always)]
    fn append(&mut self, bytes: &[u8])
        requires { length self.old.bytes + length bytes.now ≤ 4096 }
        ensures { self.new ≡ holding self.old bytes.now }
    {
        let end = self.len + bytes.len();
        self.bytes[self.len..end].copy_from_slice(bytes);
        self.len = end;
    }

    /// Takes as many of the bytes as there is room for, and gives those that are left.
    fn fill<'a>(&mut self, bytes: &'a [u8]) -> &'a [u8]
        ensures held { self.new
            ≡ holding self.old (take (4096 - length self.old.bytes) bytes.now) }
        ensures left { result.now ≡ drop (4096 - length self.old.bytes) bytes.now }
    {
        let count = bytes.len().min(PIECE - self.len);
        let (front, rest) = bytes.split_at(count);
        self.append(front);
        rest
    }

    /// Writes a full buffer.
    #[inline(always)]
    fn make_room<K: Sink>(&mut self, sink: &mut K) -> Result<(), Failed>
        ensures puts { Puts result
            (record { written = K.written sink.old; held = self.old })
            (record { written = K.written sink.new; held = self.new }) [] }
        ensures room { OnOk result (length self.new.bytes < 4096) }
    {
        if self.is_full() {
            return self.flush(sink);
        }
        Ok(())
    }

    #[inline(always)]
    fn put_byte<K: Sink>(&mut self, sink: &mut K, byte: u8) -> Result<(), Failed>
        ensures { Puts result
            (record { written = K.written sink.old; held = self.old })
            (record { written = K.written sink.new; held = self.new })
            (byte ∷ []) }
    {
        self.make_room(sink)?;
        self.push(byte);
        Ok(())
    }

    /// Adds bytes to the line. Whole pieces are written as the line goes on.
    pub fn put<K: Sink>(&mut self, sink: &mut K, bytes: &[u8]) -> Result<(), Failed>
        ensures { Puts result
            (record { written = K.written sink.old; held = self.old })
            (record { written = K.written sink.new; held = self.new })
            bytes.now }
    {
        if self.has_room(bytes.len()) {
            self.append(bytes);
            return Ok(());
        }
        self.put_pieces(sink, bytes)
    }

    /// Adds bytes, and writes each piece that they fill.
    #[inline(never)]
    fn put_pieces<K: Sink>(&mut self, sink: &mut K, bytes: &[u8]) -> Result<(), Failed>
        ensures { Puts result
            (record { written = K.written sink.old; held = self.old })
            (record { written = K.written sink.new; held = self.new })
            bytes.now }
    {
        let mut rest = bytes;
        while !rest.is_empty() {
            self.make_room(sink)?;
            rest = self.fill(rest);
        }
        Ok(())
    }

    /// Adds a number.
    pub fn put_number<K: Sink>(&mut self, sink: &mut K, number: u64) -> Result<(), Failed>
        ensures { Puts result
            (record { written = K.written sink.old; held = self.old })
            (record { written = K.written sink.new; held = self.new })
            (decimal number) }
    {
        if self.has_room(most_of_number(number)) {
            self.len = lay_number(&mut self.bytes, self.len, number);
            return Ok(());
        }
        let mut digits = Buffer::new();
        self.put_pieces(sink, digits.format(number).as_bytes())
    }

    /// Adds a number with its sign.
    pub fn put_signed<K: Sink>(&mut self, sink: &mut K, number: &i64) -> Result<(), Failed>
        ensures { Puts result
            (record { written = K.written sink.old; held = self.old })
            (record { written = K.written sink.new; held = self.new })
            (signed_decimal number.now) }
    {
        let value = *number;
        if self.has_room(most_of_signed(value)) {
            self.len = lay_signed(&mut self.bytes, self.len, value);
            return Ok(());
        }
        let mut digits = Buffer::new();
        self.put_pieces(sink, digits.format(value).as_bytes())
    }

    /// Adds a number with a blank before it.
    fn put_after_blank<K: Sink>(&mut self, sink: &mut K, number: &i64) -> Result<(), Failed>
        ensures { Puts result
            (record { written = K.written sink.old; held = self.old })
            (record { written = K.written sink.new; held = self.new })
            (32 ∷ signed_decimal number.now) }
    {
        self.put_byte(sink, b' ')?;
        self.put_signed(sink, number)
    }

    /// Adds numbers, each with a blank before it.
    pub fn put_numbers<K: Sink>(&mut self, sink: &mut K, numbers: &[i64]) -> Result<(), Failed>
        ensures { Puts result
            (record { written = K.written sink.old; held = self.old })
            (record { written = K.written sink.new; held = self.new })
            (numbers_text numbers.now) }
    {
        for number in numbers {
            self.put_after_blank(sink, number)?;
        }
        Ok(())
    }

    /// Adds a part of a line.
    #[inline(always)]
    fn put_part<K: Sink>(&mut self, sink: &mut K, part: Part) -> Result<(), Failed>
        ensures { Puts result
            (record { written = K.written sink.old; held = self.old })
            (record { written = K.written sink.new; held = self.new })
            (part_text part.entry) }
    {
        if self.has_room(part.most()) {
            self.len = lay_part(&mut self.bytes, self.len, part);
            return Ok(());
        }
        self.put_long(sink, part)
    }

    /// Adds a part for which there may be no room.
    #[inline(never)]
    fn put_long<K: Sink>(&mut self, sink: &mut K, part: Part) -> Result<(), Failed>
        ensures { Puts result
            (record { written = K.written sink.old; held = self.old })
            (record { written = K.written sink.new; held = self.new })
            (part_text part.entry) }
    {
        match part {
            Part::Text(text) => self.put(sink, text),
            Part::Number(number) => self.put_number(sink, number),
            Part::Signed(number) => self.put_signed(sink, &number),
            Part::Numbers(numbers) => self.put_numbers(sink, numbers),
        }
    }

    /// Adds a part of a line. With the three that follow, parts that are known where they are called
    /// cost no more than their bytes, and one test of the room is for them all.
    #[inline(always)]
    pub fn put_one<K: Sink>(&mut self, sink: &mut K, part: Part) -> Result<(), Failed>
        ensures { Puts result
            (record { written = K.written sink.old; held = self.old })
            (record { written = K.written sink.new; held = self.new })
            (concat (part_text part.entry ∷ [])) }
    {
        self.put_part(sink, part)
    }

    /// Adds two parts of a line.
    #[inline(always)]
    pub fn put_two<K: Sink>(&mut self, sink: &mut K, a: Part, b: Part) -> Result<(), Failed>
        ensures { Puts result
            (record { written = K.written sink.old; held = self.old })
            (record { written = K.written sink.new; held = self.new })
            (concat (part_text a.entry ∷ part_text b.entry ∷ [])) }
    {
        if self.has_room(a.most() + b.most()) {
            self.len = lay_two(&mut self.bytes, self.len, a, b);
            return Ok(());
        }
        self.put_all(sink, &[a, b])
    }

    /// Adds three parts of a line.
    #[inline(always)]
    pub fn put_three<K: Sink>(
        &mut self,
        sink: &mut K,
        a: Part,
        b: Part,
        c: Part,
    ) -> Result<(), Failed>
        ensures { Puts result
            (record { written = K.written sink.old; held = self.old })
            (record { written = K.written sink.new; held = self.new })
            (concat (part_text a.entry ∷ part_text b.entry ∷ part_text c.entry ∷ [])) }
    {
        if self.has_room(a.most() + b.most() + c.most()) {
            self.len = lay_three(&mut self.bytes, self.len, a, b, c);
            return Ok(());
        }
        self.put_all(sink, &[a, b, c])
    }

    /// Adds four parts of a line.
    #[inline(always)]
    pub fn put_four<K: Sink>(
        &mut self,
        sink: &mut K,
        a: Part,
        b: Part,
        c: Part,
        d: Part,
    ) -> Result<(), Failed>
        ensures { Puts result
            (record { written = K.written sink.old; held = self.old })
            (record { written = K.written sink.new; held = self.new })
            (concat (part_text a.entry ∷ part_text b.entry ∷ part_text c.entry ∷ part_text d.entry ∷ [])) }
    {
        if self.has_room(a.most() + b.most() + c.most() + d.most()) {
            self.len = lay_four(&mut self.bytes, self.len, a, b, c, d);
            return Ok(());
        }
        self.put_all(sink, &[a, b, c, d])
    }

    /// Adds the parts of a line.
    pub fn put_all<K: Sink>(&mut self, sink: &mut K, parts: &[Part]) -> Result<(), Failed>
        ensures { Puts result
            (record { written = K.written sink.old; held = self.old })
            (record { written = K.written sink.new; held = self.new })
            (concat (part_texts parts.now)) }
    {
        for part in parts {
            self.put_part(sink, *part)?;
        }
        Ok(())
    }

    /// Ends the line, and writes what the buffer holds.
    pub fn end_line<K: Sink>(&mut self, sink: &mut K) -> Result<(), Failed>
        ensures { Puts result
            (record { written = K.written sink.old; held = self.old })
            (at_rest (K.written sink.new) self.new) (10 ∷ []) }
    {
        self.put_byte(sink, b'\n')?;
        self.flush(sink)
    }
}
