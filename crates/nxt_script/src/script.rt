// A script that is read row by row.

ghost use Rattle.std.specs.Prelude.{◌≡◌, ◌≢◌, ◌≤◌, ◌⊎◌, OnOk, Ok, Err, None};
ghost use Rattle.std.specs.Io.KnownBytes.{IsAtEnd};
ghost use Rattle.nxt_edge.specs.Edge.{Rose};
ghost use Rattle.nxt_script.specs.Scripts.{IsOpen, NextOf, Ended, unread};
ghost use Rattle.nxt_script.specs.Ahead.{HasEnded, TakesFew};

use crate::fault::ScriptFault;
use crate::text::Text;
use nxt_edge::Source;
use nxt_model::event::ScriptRow;
use std::alloc::Global;
use std::marker::Model;

// How far a script was read.
#[derive(Drop)]
enum Stage {
    Started(Text),
    Stopped(ScriptFault),
}

/// The rows of a script, one by one.
#[derive(Drop)]
pub struct Script {
    alloc: Global,
    stage: Stage,
}

impl Model for Script {
    ghost use Rattle.nxt_script.specs.Scripts.{Seen, Reading, Ended};

    ghost Value = { Seen };

    ghost use Rattle.nxt_script.specs.declared.script.Stage.TheVariants.{Started, Stopped};

    ghost view = { λ s. elim s.stage [ Started text ↦ Reading text | Stopped f ↦ Ended f ] };
}

impl Script {
    /// A script of which nothing was read. It takes no memory.
    pub fn new(alloc: Global) -> Script
        ensures { result ≡ unread }
    {
        Script {
            alloc,
            stage: Stage::Started(Text::new(alloc)),
        }
    }

    /// The next row; `None` at the script's end. The source is asked for 4,096 bytes at a time, and only while no whole line
    /// was taken; at the script's end it is at its own. After a fault each call answers that fault.
    pub fn next_row<Q: Source>(&mut self, source: &mut Q) -> Result<Option<ScriptRow>, ScriptFault>
        ensures next { NextOf self.old (Q.left source.old) self.new (Q.left source.new) result }
        ensures few { TakesFew self.old (Q.left source.old) self.new (Q.left source.new) result }
        ensures open { OnOk result (IsOpen self.new) }
        ensures over { HasEnded self.old → (source.new ≡ source.old) × (result ≢ Err ScriptFault.Failed) × OnOk result (HasEnded self.new) }
        ensures done { result ≡ Ok None → HasEnded self.new }
        ensures end { HasEnded self.new → HasEnded self.old ⊎ IsAtEnd (Q.left source.new) }
        ensures failed { result ≡ Err ScriptFault.Failed → (self.old ≡ Ended ScriptFault.Failed) ⊎ Rose (Q.faults source.old) (Q.faults source.new) }
        ensures later { Q.faults source.old ≤ Q.faults source.new }
    {
        let text = match &mut self.stage {
            Stage::Started(text) => text,
            Stage::Stopped(fault) => return Err(*fault),
        };
        match text.next_row(self.alloc, source) {
            Ok(row) => Ok(row),
            Err(fault) => {
                self.stage = Stage::Stopped(fault);
                Err(fault)
            }
        }
    }
}
