// The lines of a report.

ghost use Rattle.std.specs.Prelude.{◌≡◌, ◌+◌, ◌-◌, ◌<◌, ◌≤◌, [], ◌∷◌, ◌++◌, length, OnOk, OnErr, IsOk};
ghost use Rattle.nxt_model.specs.LineList.{Roomy, roomy};

use nxt_types::NoMemory;
use nxt_types::lists::Bytes;
use std::alloc::Global;
use std::marker::Model;

/// Why a program stopped.
#[derive(Clone, Copy, PartialEq, Eq, Debug)]
pub enum Stop {
    /// Nothing is queued, asleep or blocked.
    Finished,
    /// A stop statement.
    Stopped,
    /// A growth was refused; the footprint in bytes that it would have given.
    Memory(u64),
    /// A clump that is not idle was to be queued or called.
    Active(u8),
    /// A mutex was released by a clump that does not own it; the mutex's table entry.
    NotOwner(u16),
    /// A return to a clump that does not call.
    NoCaller(u32),
    /// Nothing is queued or asleep, and some clump waits or calls.
    Stuck,
    /// A direct command stopped the program.
    Telegram,
}

/// One line of a report, with its fields in their order.
#[derive(Drop)]
pub enum Line {
    /// Port, mode, power, run state, turn ratio, regulation mode, tacho limit.
    Motor(u8, u8, i8, u8, i8, u8, u32),
    /// Frequency in Hz, duration in ms, loop, level.
    Tone(u32, u32, u32, u32),
    /// The sound is silenced.
    Quiet,
    /// x, y, options, the text's bytes.
    Text(i64, i64, i64, Bytes),
    /// x, y, options.
    Point(i64, i64, i64),
    /// x and y of the start, x and y of the end, options.
    Line(i64, i64, i64, i64, i64),
    /// x, y, radius, options.
    Circle(i64, i64, i64, i64),
    /// x, y, width, height, options.
    Rect(i64, i64, i64, i64, i64),
    /// The screen's mode.
    Screen(i64),
    /// The bytes of a reply to a direct command.
    Reply(Bytes),
    /// The program stopped.
    Stop(Stop),
    /// The place of the dope table, its rows, the unsettled blocks, the end of the last block.
    Dump(u32, u16, u16, u32),
    /// A place in the pool, and the bytes from there on.
    Bytes(u32, Bytes),
}

/// A list of lines. Beside the lines contracts see its room: how many more lines it takes without memory.
#[derive(Drop)]
pub struct Lines {
    items: Vec<Line>,
}

impl Model for Lines {
    ghost use Rattle.std.specs.Prelude.{vec_len, vec_capacity, ◌-◌};
    ghost use Rattle.nxt_model.specs.LineList.{Roomy, roomy};

    ghost Value = { Roomy };

    ghost view = { λ a. roomy a.items.items (vec_capacity a.items - vec_len a.items) };
}

impl Lines {
    /// No lines, and no room. It takes no memory.
    pub fn new(alloc: Global) -> Lines
        ensures { result.lines ≡ [] }
    {
        Lines {
            items: Vec::new(alloc),
        }
    }

    pub fn as_slice(&self) -> &[Line]
        ensures { result.now ≡ self.now.lines }
    {
        self.items.as_slice()
    }

    /// Makes room for more lines.
    pub fn reserve(&mut self, more: usize) -> Result<(), NoMemory>
        ensures lines { self.new.lines ≡ self.old.lines }
        ensures room { OnOk result (more ≤ self.new.room) }
    {
        self.items.try_reserve(more)?;
        Ok(())
    }

    /// Adds a line at the end. An `Err` changes no line, and comes only where there is no room.
    pub fn push(&mut self, line: Line) -> Result<(), NoMemory>
        ensures ok { OnOk result (self.new.lines ≡ self.old.lines ++ line ∷ []) }
        ensures err { OnErr result (self.new.lines ≡ self.old.lines) }
        ensures succeeds { 0 < self.old.room → IsOk result }
        ensures room { self.old.room ≤ self.new.room + 1 }
    {
        self.items.push(line)?;
        Ok(())
    }

    pub fn clear(&mut self)
        ensures { self.new.lines ≡ [] }
    {
        self.items.clear();
    }
}
