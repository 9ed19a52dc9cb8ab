//! Reading fields from a list of bytes, from left to right.

ghost use Rattle.std.specs.Prelude.{◌≡◌, ◌≤◌, length};
ghost use Rattle.std.specs.Int.{w8, w16, w32, w64};
ghost use Rattle.std.specs.Option.{option_copied};
ghost use Rattle.frame_wire.specs.Fields.{u8_bytes, u16_bytes, u32_bytes, u64_bytes, i64_bytes};
ghost use Rattle.frame_wire.specs.Formats.{ReadsBy, text_field, blob_field, count_field};
ghost use Rattle.frame_wire.specs.Reading.{ReadsNumber, Reads, past, number_at, signed_at, text_at, blob_at, count_at};

use crate::counted::{first_blob, first_text};
use crate::fault::FieldFault;
use crate::number::{first_u8, first_u16, first_u32, first_u64};
use std::marker::Model;

/// Counts are signed: those above are negative.
const GREATEST_COUNT: u32 = 2_147_483_647;

/// Reads fields from the front of a list of bytes. After a fault it stands where it stood.
#[derive(Debug, Drop)]
pub struct Scan<'a> {
    bytes: &'a [u8],
    at: usize,
}

impl<'a> Model for Scan<'a> {
    ghost use Rattle.std.specs.Prelude.{drop, length, ◌≤◌};
    ghost use Rattle.frame_wire.specs.Reading.{Spot};

    ghost Value = { Spot };

    ghost view = { λ s. record { at = s.at; rest = drop s.at s.bytes.now } };

    ghost invariant = { λ s. s.at ≤ length s.bytes.now };
}

impl<'a> Scan<'a> {
    /// Stands before the first byte.
    pub fn new(bytes: &'a [u8]) -> Scan<'a>
        ensures at { result.at ≡ 0 }
        ensures rest { result.rest ≡ bytes.now }
    {
        Scan { bytes, at: 0 }
    }

    /// The number of bytes that were read.
    pub fn place(&self) -> usize
        ensures { result ≡ self.now.at }
    {
        self.at
    }

    /// Another reader that stands here.
    pub fn fork(&self) -> Scan<'a>
        ensures { result ≡ self.now }
    {
        Scan {
            bytes: self.bytes,
            at: self.at,
        }
    }

    /// The bytes that were not read yet.
    pub fn rest(&self) -> &'a [u8]
        ensures { result.now ≡ self.now.rest }
    {
        let bytes = self.bytes;
        &bytes[self.at..]
    }

    /// Reads one byte.
    pub fn u8(&mut self) -> Result<u8, FieldFault>
        ensures spelled { ReadsNumber u8_bytes 1 result self.old self.new }
        ensures read { Reads (λ n. n) result self.old self.new (number_at w8 self.old) }
    {
        let Some(value) = first_u8(self.rest()) else {
            return Err(FieldFault::Short { place: self.at });
        };
        self.at += 1;
        Ok(value)
    }

    /// Reads a number of two bytes.
    pub fn u16(&mut self) -> Result<u16, FieldFault>
        ensures spelled { ReadsNumber u16_bytes 2 result self.old self.new }
        ensures read { Reads (λ n. n) result self.old self.new (number_at w16 self.old) }
    {
        let Some(value) = first_u16(self.rest()) else {
            return Err(FieldFault::Short { place: self.at });
        };
        self.at += 2;
        Ok(value)
    }

    /// Reads a number of four bytes.
    pub fn u32(&mut self) -> Result<u32, FieldFault>
        ensures spelled { ReadsNumber u32_bytes 4 result self.old self.new }
        ensures read { Reads (λ n. n) result self.old self.new (number_at w32 self.old) }
    {
        let Some(value) = first_u32(self.rest()) else {
            return Err(FieldFault::Short { place: self.at });
        };
        self.at += 4;
        Ok(value)
    }

    /// Reads a number of eight bytes.
    pub fn u64(&mut self) -> Result<u64, FieldFault>
        ensures spelled { ReadsNumber u64_bytes 8 result self.old self.new }
        ensures read { Reads (λ n. n) result self.old self.new (number_at w64 self.old) }
    {
        let Some(value) = first_u64(self.rest()) else {
            return Err(FieldFault::Short { place: self.at });
        };
        self.at += 8;
        Ok(value)
    }

    /// Reads a signed number of eight bytes, in two's complement.
    #[tactic(auto, unfolding(crate::specs::Fields::i64_bytes, crate::specs::Fields::u64_bytes))]
    pub fn i64(&mut self) -> Result<i64, FieldFault>
        ensures spelled { ReadsNumber i64_bytes 8 result self.old self.new }
        ensures read { Reads (λ n. n) result self.old self.new (signed_at self.old) }
    {
        let value = self.u64()?;
        Ok(value.cast_signed())
    }

    /// Reads a text, or null: two bytes of length, and its bytes.
    pub fn text(&mut self) -> Result<Option<&'a [u8]>, FieldFault>
        ensures spelled { ReadsBy text_field option_copied result self.old self.new }
        ensures read { Reads option_copied result self.old self.new (text_at self.old) }
    {
        let (text, len) = first_text(self.rest(), self.at)?;
        self.at += len;
        Ok(text)
    }

    /// Reads a blob, or null: four bytes of length, and its bytes.
    pub fn blob(&mut self) -> Result<Option<&'a [u8]>, FieldFault>
        ensures spelled { ReadsBy blob_field option_copied result self.old self.new }
        ensures read { Reads option_copied result self.old self.new (blob_at self.old) }
    {
        let (blob, len) = first_blob(self.rest(), self.at)?;
        self.at += len;
        Ok(blob)
    }

    /// Reads the number of items of a list, of four bytes.
    #[tactic(auto, unfolding(crate::specs::Reading::count_at))]
    pub fn count(&mut self) -> Result<u32, FieldFault>
        ensures spelled { ReadsBy count_field (λ n. n) result self.old self.new }
        ensures read { Reads (λ n. n) result self.old self.new (count_at self.old) }
    {
        let place = self.at;
        let Some(count) = first_u32(self.rest()) else {
            return Err(FieldFault::Short { place });
        };
        if count > GREATEST_COUNT {
            return Err(FieldFault::Negative { place });
        }
        self.at = place + 4;
        Ok(count)
    }

    /// Goes on behind so many raw bytes.
    pub fn advance(&mut self, len: usize)
        requires { len ≤ length self.old.rest }
        ensures { self.new ≡ past len self.old }
    {
        self.at += len;
    }
}
