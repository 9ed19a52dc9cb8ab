ghost use Rattle.std.specs.Prelude.{◌≡◌, ◌≢◌, ◌<◌, ◌++◌, ◌+◌, ◌↔◌, [], List, ℕ, false, min, length, take, drop, IfOk, OnErr, Some, Ok};
ghost use Rattle.std.specs.List.{Contains};
ghost use Rattle.outside_io.specs.Causes.{HasCause, next_count};
ghost use Rattle.outside_io.specs.Known.{Writes};
ghost use Rattle.outside_io.specs.Links.{Hears, ended_after, heard_count, answer_of};
ghost use Rattle.outside_io.specs.Memory.{Counts, FailsNext};

use crate::fail_plan::FailPlan;
use crate::link::{Heard, Hearing, Link};
use crate::memory::MemorySink;
use crate::sink::{Gave, Sink};
use crate::source::Source;
use crate::sure::SureSource;
use frame_wire::{Octets, Row};
use std::alloc::{AllocError, Global};
use std::marker::Model;

/// A link in memory, whose listed receives find nothing, and whose listed calls fail.
#[derive(Debug, Drop)]
pub struct MemoryLink {
    alloc: Global,
    bytes: SureSource,
    quiets: Vec<u64>,
    receives: FailPlan,
    heard: Row<Hearing>,
    has_ended: bool,
    sink: MemorySink,
}

impl Model for MemoryLink {
    ghost use Rattle.outside_io.specs.Memory.{LinkState};

    ghost Value = { LinkState };

    ghost view = { λ l. record {
      left = l.bytes;
      quiets = l.quiets.items;
      receives = l.receives;
      heard = l.heard;
      has_ended = l.has_ended;
      sends = l.sink;
    } };
}

impl MemoryLink {
    /// A link over which these bytes come. Numbers count from 1: `quiets` has those of the receives
    /// that answer Quiet, `receive_fails` and `send_fails` those of the receives and of the sends
    /// that fail. It takes memory for a copy of all four.
    pub fn new(
        alloc: Global,
        bytes: &[u8],
        quiets: &[u64],
        receive_fails: &[u64],
        send_fails: &[u64],
    ) -> Result<MemoryLink, AllocError>
        ensures { IfOk result (λ l. l ≡ record {
          left = bytes.now;
          quiets = quiets.now;
          receives = record { fails = receive_fails.now; calls = 0; faults = 0 };
          heard = [];
          has_ended = false;
          sends = record { written = []; fails = send_fails.now; calls = 0; faults = 0 };
        }) }
    {
        Ok(MemoryLink {
            alloc,
            bytes: SureSource::new(alloc, bytes)?,
            quiets: Vec::from_slice(alloc, quiets)?,
            receives: FailPlan::new(alloc, receive_fails)?,
            heard: Row::new(alloc),
            has_ended: false,
            sink: MemorySink::new(alloc, send_fails)?,
        })
    }

    /// The bytes sent so far.
    pub fn sent(&self) -> &[u8]
        ensures { result.now ≡ self.now.sends.written }
    {
        self.sink.written()
    }

    /// The answers of the receives so far that didn't fail.
    pub fn heard(&self) -> &[Hearing]
        ensures { result.now ≡ self.now.heard }
    {
        self.heard.as_slice()
    }

    // What the receive that was just counted hears, with room for this many bytes.
    fn next_hearing(&self, room: usize) -> Result<Hearing, AllocError>
        requires { 0 < room }
        ensures quiet { IfOk result (λ h. (h ≡ Hearing.Quiet)
            ↔ Contains self.now.quiets self.now.receives.calls) }
        ensures end { IfOk result (λ h. h ≡ Hearing.Ended → self.now.left ≡ []) }
        ensures piece { IfOk result (λ h. (piece : List ℕ) → h ≡ Hearing.Piece piece →
            (0 < length piece) × (piece ≡ take room self.now.left)) }
    {
        if self.quiets.contains(&self.receives.calls()) {
            return Ok(Hearing::Quiet);
        }
        let rest = self.bytes.rest();
        if rest.is_empty() {
            return Ok(Hearing::Ended);
        }
        let piece = Octets::copy(self.alloc, &rest[..rest.len().min(room)])?;
        Ok(Hearing::Piece(piece))
    }

    // Hears what comes next, and keeps it. Want of memory changes nothing.
    fn hear(&mut self, buf: &mut [u8]) -> Result<Heard, AllocError>
        requires { 0 < length buf.old }
        ensures err { OnErr result ((self.new ≡ self.old) × (buf.new ≡ buf.old)) }
        ensures fails { result ≢ Ok Heard.Failed }
        ensures quiet { IfOk result (λ h. (h ≡ Heard.Quiet)
            ↔ Contains self.old.quiets self.old.receives.calls) }
        ensures end { IfOk result (λ h. h ≡ Heard.Ended → self.old.left ≡ []) }
        ensures size { IfOk result (λ h. (n : ℕ) → h ≡ Heard.Got n →
            n ≡ min (length buf.old) (length self.old.left)) }
        ensures heard { IfOk result (λ h.
            Hears (Some self.old.heard) h buf.new (Some self.new.heard)) }
        ensures ended { IfOk result (λ h.
            self.new.has_ended ≡ ended_after self.old.has_ended h) }
        ensures buffer { IfOk result (λ h. buf.new ≡
            take (heard_count h) self.old.left ++ drop (heard_count h) buf.old) }
        ensures left { IfOk result (λ h. self.new.left ≡ drop (heard_count h) self.old.left) }
        ensures same { (self.new.quiets ≡ self.old.quiets)
            × (self.new.receives ≡ self.old.receives) × (self.new.sends ≡ self.old.sends) }
    {
        let hearing = self.next_hearing(buf.len())?;
        let answer = answer(&hearing);
        if self.heard.push(hearing).is_err() {
            return Err(AllocError);
        }
        match answer {
            Heard::Got(_) => {
                let _ = self.bytes.read(buf);
            }
            Heard::Ended => self.has_ended = true,
            Heard::Quiet | Heard::Failed => (),
        }
        Ok(answer)
    }
}

// How a receive answers that hears this.
fn answer(hearing: &Hearing) -> Heard
    ensures { result ≡ answer_of hearing.now }
{
    match hearing {
        Hearing::Piece(piece) => Heard::Got(piece.len()),
        Hearing::Quiet => Heard::Quiet,
        Hearing::Ended => Heard::Ended,
    }
}

impl Link for MemoryLink {
    ghost use Rattle.std.specs.Prelude.{Some};

    ghost heard = { λ l. Some l.heard };

    ghost sent = { λ l. Some l.sends.written };

    ghost has_ended = { λ l. l.has_ended };

    ghost faults = { λ l. l.receives.faults + l.sends.faults };

    /// Fails at the listed receives, and for want of memory to keep its answer. Else it answers
    /// Quiet exactly at the receives that `quiets` lists, gives as many bytes as are left and fit,
    /// and answers Ended after the last.
    fn receive(&mut self, buf: &mut [u8]) -> Heard
        requires { 0 < length buf.old }
        ensures heard { Hears (Some self.old.heard) result buf.new (Some self.new.heard) }
        ensures sent { Some self.new.sends.written ≡ Some self.old.sends.written }
        ensures ended { self.new.has_ended ≡ ended_after self.old.has_ended result }
        ensures cause { HasCause (self.old.receives.faults + self.old.sends.faults)
            (self.new.receives.faults + self.new.sends.faults) (result ≡ Heard.Failed) }
        ensures listed { FailsNext self.old.receives.fails self.old.receives.calls →
            result ≡ Heard.Failed }
        ensures quiet { result ≢ Heard.Failed → ((result ≡ Heard.Quiet)
            ↔ Contains self.old.quiets (next_count self.old.receives.calls)) }
        ensures end { result ≡ Heard.Ended → self.old.left ≡ [] }
        ensures size { (n : ℕ) → result ≡ Heard.Got n →
            n ≡ min (length buf.old) (length self.old.left) }
        ensures buffer { buf.new ≡
            take (heard_count result) self.old.left ++ drop (heard_count result) buf.old }
        ensures left { self.new.left ≡ drop (heard_count result) self.old.left }
        ensures quiets { self.new.quiets ≡ self.old.quiets }
        ensures receives { Counts self.old.receives self.new.receives (result ≡ Heard.Failed) }
        ensures sends { self.new.sends ≡ self.old.sends }
    {
        if self.receives.next_fails() {
            self.receives.count_fault();
            return Heard::Failed;
        }
        match self.hear(buf) {
            Ok(answer) => answer,
            Err(_) => {
                self.receives.count_fault();
                Heard::Failed
            }
        }
    }

    /// Fails at the listed sends, and for want of memory. A send that fails adds nothing.
    fn send(&mut self, bytes: &[u8]) -> Gave
        ensures sent { Writes (Some self.old.sends.written) result bytes.now
            (Some self.new.sends.written) }
        ensures heard { Some self.new.heard ≡ Some self.old.heard }
        ensures ended { self.new.has_ended ≡ self.old.has_ended }
        ensures cause { HasCause (self.old.receives.faults + self.old.sends.faults)
            (self.new.receives.faults + self.new.sends.faults) (result ≡ Gave.Failed) }
        ensures listed { FailsNext self.old.sends.fails self.old.sends.calls →
            result ≡ Gave.Failed }
        ensures empty { ¬ FailsNext self.old.sends.fails self.old.sends.calls →
            bytes.now ≡ [] → result ≡ Gave.Done }
        ensures failed { result ≡ Gave.Failed → self.new.sends.written ≡ self.old.sends.written }
        ensures fails { self.new.sends.fails ≡ self.old.sends.fails }
        ensures calls { self.new.sends.calls ≡ next_count self.old.sends.calls }
        ensures faulted { result ≡ Gave.Failed →
            self.new.sends.faults ≡ next_count self.old.sends.faults }
        ensures unfaulted { result ≡ Gave.Done →
            self.new.sends.faults ≡ self.old.sends.faults }
        ensures left { self.new.left ≡ self.old.left }
        ensures quiets { self.new.quiets ≡ self.old.quiets }
        ensures receives { self.new.receives ≡ self.old.receives }
    {
        self.sink.write_all(bytes)
    }
}
