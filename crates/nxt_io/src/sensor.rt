// One sensor.

ghost use Rattle.std.specs.Prelude.{◌≡◌, if◌then◌else◌, replicate, pos, slice_set, slice_index_or};
ghost use Rattle.nxt_model.specs.Devices.{sensor_writable, sensor_kinds, as_property};
ghost use Rattle.nxt_io.specs.Taken.{read_out};

use crate::fields::{byte, signed_half};
use std::marker::Model;

/// What a sensor holds, in the order of its properties (Executable File Specification, "Input Port
/// Configuration Properties").
#[derive(Drop)]
pub(crate) struct Sensor {
    type_number: u8,
    mode: u8,
    raw: u16,
    normalized: u16,
    scaled: i16,
    invalid: u8,
}

impl Model for Sensor {
    ghost use Rattle.std.specs.Prelude.{ℤ, List, [], ◌∷◌, pos};

    ghost Value = { List ℤ };

    ghost view = { λ s. pos s.type_number ∷ pos s.mode ∷ pos s.raw ∷ pos s.normalized ∷ s.scaled ∷ pos s.invalid ∷ [] };
}

impl Sensor {
    /// A sensor at the start.
    pub fn new() -> Sensor
        ensures { result ≡ replicate 6 (pos 0) }
    {
        Sensor {
            type_number: 0,
            mode: 0,
            raw: 0,
            normalized: 0,
            scaled: 0,
            invalid: 0,
        }
    }

    /// A property, or 0 where there is none with this number.
    pub fn property(&self, prop: u8) -> i64
        ensures { result ≡ slice_index_or self.now prop (pos 0) }
    {
        // A field is read first, which tells the proof how many properties there are.
        let type_number = i64::from(self.type_number);
        match prop {
            0 => type_number,
            1 => i64::from(self.mode),
            2 => i64::from(self.raw),
            3 => i64::from(self.normalized),
            4 => i64::from(self.scaled),
            5 => i64::from(self.invalid),
            _ => 0,
        }
    }

    /// Stores a number in a property, where a program may write that one.
    pub fn set_property(&mut self, prop: u8, x: i64)
        ensures { self.new ≡ (if sensor_writable prop then slice_set self.old prop (as_property sensor_kinds prop x) else self.old) }
    {
        match prop {
            0 => self.type_number = byte(x),
            1 => self.mode = byte(x),
            4 => self.scaled = signed_half(x),
            5 => self.invalid = byte(x),
            _ => {}
        }
    }

    /// A reading, which is valid.
    pub fn read(&mut self, raw: u16, normalized: u16, scaled: i16)
        ensures { self.new ≡ read_out raw normalized scaled self.old }
    {
        self.raw = raw;
        self.normalized = normalized;
        self.scaled = scaled;
        self.invalid = 0;
    }
}
