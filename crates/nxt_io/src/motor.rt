// One motor.

ghost use Rattle.std.specs.Prelude.{◌≡◌, length, if◌then◌else◌, replicate, pos, slice_set, slice_index_or};
ghost use Rattle.nxt_model.specs.Devices.{set_property as property_set, updated, update_flags, motor_line};
ghost use Rattle.nxt_io.specs.Taken.{counted};

use crate::fields::{byte, long, signed_byte};
use nxt_model::line::Line;
use std::marker::Model;

/// The update flag that resets the tacho count.
const RESET_TACHO: u8 = 8;

/// The update flag that resets the block tacho count.
const RESET_BLOCK: u8 = 32;

/// The update flag that resets the rotation count.
const RESET_ROTATION: u8 = 64;

/// What a motor holds, in the order of its properties (Executable File Specification, "Output Port
/// Configuration Properties"). Power, speed and turn ratio are percents, counts and the limit are degrees.
#[derive(Drop)]
pub(crate) struct Motor {
    update_flags: u8,
    mode: u8,
    power: i8,
    actual_speed: i8,
    tacho_count: i32,
    tacho_limit: u32,
    run_state: u8,
    turn_ratio: i8,
    regulation_mode: u8,
    overload: u8,
    proportional: u8,
    integral: u8,
    differential: u8,
    block_count: i32,
    rotation_count: i32,
}

impl Model for Motor {
    ghost use Rattle.std.specs.Prelude.{ℤ, List, [], ◌∷◌, pos};

    ghost Value = { List ℤ };

    ghost view = { λ m. pos m.update_flags ∷ pos m.mode ∷ m.power ∷ m.actual_speed ∷ m.tacho_count ∷ pos m.tacho_limit
        ∷ pos m.run_state ∷ m.turn_ratio ∷ pos m.regulation_mode ∷ pos m.overload ∷ pos m.proportional ∷ pos m.integral
        ∷ pos m.differential ∷ m.block_count ∷ m.rotation_count ∷ [] };
}

impl Motor {
    /// A motor at the start.
    pub fn new() -> Motor
        ensures { result ≡ replicate 15 (pos 0) }
    {
        Motor {
            update_flags: 0,
            mode: 0,
            power: 0,
            actual_speed: 0,
            tacho_count: 0,
            tacho_limit: 0,
            run_state: 0,
            turn_ratio: 0,
            regulation_mode: 0,
            overload: 0,
            proportional: 0,
            integral: 0,
            differential: 0,
            block_count: 0,
            rotation_count: 0,
        }
    }

    /// It has fifteen properties. The call does nothing.
    pub fn is_whole(&self)
        ensures { length self.now ≡ 15 }
    {
        // A field is read, which tells the proof how many properties there are.
        let _flags = self.update_flags;
    }

    /// A property, or 0 where there is none with this number.
    pub fn property(&self, prop: u8) -> i64
        ensures { result ≡ slice_index_or self.now prop (pos 0) }
    {
        // A field is read first, which tells the proof how many properties there are.
        let flags = i64::from(self.update_flags);
        match prop {
            0 => flags,
            1 => i64::from(self.mode),
            2 => i64::from(self.power),
            3 => i64::from(self.actual_speed),
            4 => i64::from(self.tacho_count),
            5 => i64::from(self.tacho_limit),
            6 => i64::from(self.run_state),
            7 => i64::from(self.turn_ratio),
            8 => i64::from(self.regulation_mode),
            9 => i64::from(self.overload),
            10 => i64::from(self.proportional),
            11 => i64::from(self.integral),
            12 => i64::from(self.differential),
            13 => i64::from(self.block_count),
            14 => i64::from(self.rotation_count),
            _ => 0,
        }
    }

    /// Stores a number in a property, where a program may write that one.
    pub fn set_property(&mut self, prop: u8, x: i64)
        ensures { self.new ≡ property_set prop x self.old }
    {
        match prop {
            0 => self.update_flags = byte(x),
            1 => self.mode = byte(x),
            2 => self.power = signed_byte(x),
            5 => self.tacho_limit = long(x),
            6 => self.run_state = byte(x),
            7 => self.turn_ratio = signed_byte(x),
            8 => self.regulation_mode = byte(x),
            10 => self.proportional = byte(x),
            11 => self.integral = byte(x),
            12 => self.differential = byte(x),
            _ => {}
        }
    }

    pub fn flags(&self) -> u8
        ensures { result ≡ update_flags self.now }
    {
        self.update_flags
    }

    /// The motor's line, where it stands at this port.
    pub fn line(&self, port: u8) -> Line
        ensures { result ≡ motor_line port self.now }
    {
        Line::Motor(
            port,
            self.mode,
            self.power,
            self.run_state,
            self.turn_ratio,
            self.regulation_mode,
            self.tacho_limit,
        )
    }

    /// Makes what was stored take effect: the update flags act and become 0.
    pub fn commit(&mut self)
        ensures { self.new ≡ updated self.old }
    {
        let flags = self.update_flags;
        if flags & RESET_TACHO != 0 {
            self.tacho_count = 0;
        }
        if flags & RESET_BLOCK != 0 {
            self.block_count = 0;
        }
        if flags & RESET_ROTATION != 0 {
            self.rotation_count = 0;
        }
        self.update_flags = 0;
    }

    /// Resets its position: the block tacho count where it is relative, and else the rotation count.
    pub fn reset_count(&mut self, relative: bool)
        ensures { self.new ≡ slice_set self.old (if relative then 13 else 14) (pos 0) }
    {
        if relative {
            self.block_count = 0;
        } else {
            self.rotation_count = 0;
        }
    }

    /// What the tacho tells: the actual speed in percent, and three counts in degrees.
    pub fn count(&mut self, speed: i8, count: i32, block: i32, rotation: i32)
        ensures { self.new ≡ counted speed count block rotation self.old }
    {
        self.actual_speed = speed;
        self.tacho_count = count;
        self.block_count = block;
        self.rotation_count = rotation;
    }
}
