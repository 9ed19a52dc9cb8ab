//! The replay of a whole script.

ghost use Rattle.std.specs.Prelude.{◌≡◌, ◌≢◌, ◌≤◌, ◌+◌, ◌<◌, ◌^◌, ◌++◌, ◌∷◌, [], List, ℕ, ◌⊎◌, length, IfOk, Some};
ghost use Rattle.outside_io.specs.Causes.{HasCause, Rose};
ghost use Rattle.outside_io.specs.Known.{after_known};
ghost use Rattle.replay_node.specs.NodeState.{new_node};
ghost use Rattle.script_text.specs.Words.{line_feed};
ghost use Rattle.replay_node.specs.Plays.{joined, Cuts, AnswersOne, PiecePlays, IsLineEnd, ScriptPlays, Closes};
ghost use Rattle.replay_node.specs.Replays.{IsOpen, bad_line, status_of, most_bytes};
ghost use Rattle.replay_node.specs.Complete.{IsGoodScript, ReplaysAs};
ghost use Rattle.replay_node.specs.Transcripts.{Transcribed};

use crate::node::Node;
use frame_wire::{Limits, Octets};
use outside_io::{Gave, Sink, Source, Took};
use script_text::{LONGEST_LINE, LineFault, OutputLine, find_byte, write_output};
use std::alloc::{AllocError, Global};

/// The most bytes of a script.
const MOST_BYTES: u64 = 1_073_741_824;

/// How a replay ends.
#[derive(Clone, Copy, Debug, PartialEq, Eq)]
pub enum ReplayEnd {
    /// The script was read to its end, each line was answered, and `end` was written.
    Done,
    /// A line was Bad, and `bad` with its number was written.
    Bad,
    /// A read of the script failed.
    ReadFault,
    /// A write failed.
    WriteFault,
    Memory,
    /// More than 1,073,741,824 bytes of script were taken.
    TooLong,
}

/// A node with the bytes of a line that is not whole yet, and the number of lines answered.
#[derive(Debug, Drop)]
struct Player {
    node: Node,
    line: Octets,
    lines: u64,
}

/// Writes lines one after the other.
fn write_lines<K: Sink>(out: &mut K, lines: &[Octets]) -> Gave
    ensures gave { Cuts result (joined lines.now) (K.written out.old) (K.written out.new) }
    ensures cause { HasCause (K.faults out.old) (K.faults out.new) (result ≡ Gave.Failed) }
{
    for line in lines {
        match out.write_all(line.as_slice()) {
            Gave::Done => {}
            Gave::Failed => return Gave::Failed,
        }
    }
    Gave::Done
}

/// Answers one line and writes what it gives.
fn answer_line<K: Sink>(node: &mut Node, line: &[u8], out: &mut K) -> ReplayEnd
    ensures answer { AnswersOne result node.old line.now node.new (K.written out.old) (K.written out.new) }
    ensures cause { HasCause (K.faults out.old) (K.faults out.new) (result ≡ ReplayEnd.WriteFault) }
{
    match node.line(line) {
        Ok(lines) => match write_lines(out, lines.as_slice()) {
            Gave::Done => ReplayEnd::Done,
            Gave::Failed => ReplayEnd::WriteFault,
        },
        Err(LineFault::Bad) => ReplayEnd::Bad,
        Err(LineFault::Memory) => ReplayEnd::Memory,
    }
}

/// Takes the end of a line, answers the line, and goes on to the next.
fn take_line<K: Sink>(player: &mut Player, part: &[u8], out: &mut K) -> ReplayEnd
    requires begun { IsOpen player.old.line }
    requires ends { IsLineEnd part.now }
    requires room { player.old.lines + 1 < 2 ^ 64 }
    ensures plays { PiecePlays result player.old.node player.new.node (player.old.line ++ part.now) player.new.line player.old.lines player.new.lines (K.written out.old) (K.written out.new) }
    ensures fresh { result ≡ ReplayEnd.Done → player.new.line ≡ [] }
    ensures count { player.new.lines ≤ player.old.lines + 1 }
    ensures cause { HasCause (K.faults out.old) (K.faults out.new) (result ≡ ReplayEnd.WriteFault) }
{
    let Ok(()) = player.line.push_slice(part) else {
        return ReplayEnd::Memory;
    };
    match answer_line(&mut player.node, player.line.as_slice(), out) {
        ReplayEnd::Done => {
            player.line.cut(0);
            player.lines += 1;
            ReplayEnd::Done
        }
        stopped => stopped,
    }
}

/// Answers the lines that a piece of the script completes.
fn take_piece<K: Sink>(player: &mut Player, piece: &[u8], out: &mut K) -> ReplayEnd
    requires begun { IsOpen player.old.line }
    requires room { player.old.lines + length piece.now < 2 ^ 64 }
    ensures plays { PiecePlays result player.old.node player.new.node (player.old.line ++ piece.now) player.new.line player.old.lines player.new.lines (K.written out.old) (K.written out.new) }
    ensures count { player.new.lines ≤ player.old.lines + length piece.now }
    ensures cause { HasCause (K.faults out.old) (K.faults out.new) (result ≡ ReplayEnd.WriteFault) }
{
    let mut rest = piece;
    'lines: while let Some(k) = find_byte(rest, b'\n') {
        let (part, more) = rest.split_at(k + 1);
        match take_line(player, part, out) {
            ReplayEnd::Done => {}
            stopped => return stopped,
        }
        rest = more;
    }
    let Ok(()) = player.line.push_slice(rest) else {
        return ReplayEnd::Memory;
    };
    if player.line.len() > LONGEST_LINE {
        return ReplayEnd::Bad;
    }
    ReplayEnd::Done
}

/// Reads a script to its end or to what stops it, and answers its lines.
fn play<S: Source, K: Sink>(player: &mut Player, script: &mut S, out: &mut K) -> ReplayEnd
    requires node { player.old.node ≡ new_node }
    requires line { player.old.line ≡ [] }
    requires lines { player.old.lines ≡ 0 }
    ensures plays { ScriptPlays result (S.left script.old) (S.left script.new) player.new.lines (K.written out.old) (K.written out.new) }
    ensures count { player.new.lines ≤ 1073741824 }
    ensures read { HasCause (S.faults script.old) (S.faults script.new) (result ≡ ReplayEnd.ReadFault) }
    ensures write { HasCause (K.faults out.old) (K.faults out.new) (result ≡ ReplayEnd.WriteFault) }
{
    let mut buf = [0u8; 4096];
    let mut total = 0u64;
    'pieces: loop {
        match script.read(&mut buf) {
            Took::Failed => return ReplayEnd::ReadFault,
            Took::End => return script_end(player),
            Took::Got(count) => {
                total += count as u64;
                if total > MOST_BYTES {
                    return ReplayEnd::TooLong;
                }
                match take_piece(player, &buf[..count], out) {
                    ReplayEnd::Done => {}
                    stopped => return stopped,
                }
            }
        }
    }
}

/// A script that ends within a line is Bad there.
fn script_end(player: &Player) -> ReplayEnd
    ensures done { result ≡ ReplayEnd.Done → player.now.line ≡ [] }
    ensures bad { result ≢ ReplayEnd.Done → (result ≡ ReplayEnd.Bad) × (1 ≤ length player.now.line) }
{
    if player.line.len() == 0 {
        ReplayEnd::Done
    } else {
        ReplayEnd::Bad
    }
}

/// The last line of a replay that came to a Bad line, the one after so many.
fn bad_text(alloc: Global, lines: u64) -> Result<Octets, AllocError>
    requires { lines + 1 < 2 ^ 64 }
    ensures { IfOk result (λ line. line ≡ bad_line (lines + 1)) }
{
    let line = OutputLine::Bad { number: lines + 1 };
    write_output(alloc, &line)
}

/// Writes the last line, where there is one to write.
fn close<K: Sink>(alloc: Global, lines: u64, end: ReplayEnd, out: &mut K) -> ReplayEnd
    requires { lines + 1 < 2 ^ 64 }
    ensures closes { Closes end lines result (K.written out.old) (K.written out.new) }
    ensures cause { HasCause (K.faults out.old) (K.faults out.new) ((result ≡ ReplayEnd.WriteFault) × (end ≢ ReplayEnd.WriteFault)) }
{
    match end {
        ReplayEnd::Done => match out.write_all(b"end\n") {
            Gave::Done => ReplayEnd::Done,
            Gave::Failed => ReplayEnd::WriteFault,
        },
        ReplayEnd::Bad => {
            let Ok(text) = bad_text(alloc, lines) else {
                return ReplayEnd::Memory;
            };
            match out.write_all(text.as_slice()) {
                Gave::Done => ReplayEnd::Bad,
                Gave::Failed => ReplayEnd::WriteFault,
            }
        }
        other => other,
    }
}

fn status(end: ReplayEnd) -> u8
    ensures { result ≡ status_of end }
{
    match end {
        ReplayEnd::Done => 0,
        ReplayEnd::Bad => 3,
        ReplayEnd::ReadFault => 4,
        ReplayEnd::WriteFault => 5,
        ReplayEnd::Memory => 6,
        ReplayEnd::TooLong => 9,
    }
}

/// Replays a script: reads it line by line, gives each line to a new node, and writes what the node gives, then `end`,
/// or `bad n` where line n is Bad. It answers 0 where `end` was written, 3 where `bad n` was, 4 where a read failed,
/// 5 where a write failed, 6 for want of memory, and 9 where more than 1,073,741,824 bytes of script were taken.
pub fn replay<S: Source, K: Sink>(alloc: Global, script: &mut S, out: &mut K, limits: &Limits) -> u8
    // What was written is what the lines give, then `end` or `bad n`; the status has its cause; each message is confirmed.
    ensures replays { ReplaysAs result (S.left script.old) (S.left script.new) (K.written out.old) (K.written out.new) }
    // What was read and written is a run of the list machine.
    ensures transcript { Transcribed (S.left script.old) (S.left script.new) (K.written out.old) (K.written out.new) }
    ensures read { result ≡ 4 → Rose (S.faults script.old) (S.faults script.new) }
    ensures write { result ≡ 5 → Rose (K.faults out.old) (K.faults out.new) }
    // A script within the limit, without a Bad line, a failed read or a failed write ends well, or for want of memory.
    ensures complete { (text : List ℕ) → S.left script.old ≡ Some text → length text ≤ most_bytes → IsGoodScript text
        → ¬ Rose (S.faults script.old) (S.faults script.new) → ¬ Rose (K.faults out.old) (K.faults out.new)
        → (result ≡ 0) ⊎ (result ≡ 6) }
{
    let Ok(node) = Node::new(alloc, limits) else {
        return status(ReplayEnd::Memory);
    };
    let mut player = Player {
        node,
        line: Octets::new(alloc),
        lines: 0,
    };
    let end = play(&mut player, script, out);
    let closed = close(alloc, player.lines, end, out);
    status(closed)
}
